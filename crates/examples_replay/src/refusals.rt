ghost use Rattle.std.specs.Prelude.{◌≡◌, ◌∷◌, [], Some, codes};
ghost use Rattle.wire_base.specs.declared.cause.Cause.TheVariants as cause;
ghost use Rattle.wire_base.specs.declared.faults.EdgeFault.TheVariants as edge;
ghost use Rattle.wire_base.specs.declared.faults.IpFault.TheVariants as ip;
ghost use Rattle.wire_base.specs.declared.faults.PduFault.TheVariants as pdu;
ghost use Rattle.replay_text.specs.declared.fault.TextFault.TheVariants as text;
ghost use Rattle.domain_model.specs.declared.fault.EventFault.TheVariants as event;
ghost use Rattle.examples_model.specs.Domains.{pair};
ghost use Rattle.replay_text.specs.Report.{cause_text};
ghost use Rattle.domain_replay.specs.Texts.{BadText, BadEvent, TooLong, refusal_text, run_text, schedule_reaches};
ghost use Rattle.examples_replay.specs.Schedules.{said, too_few, nobody};

/// How errors are reported, and causes with a number.
pub fn lines_of_refusals()
    ensures hex { refusal_text 1 (BadText text.Hex) ≡ said (codes "refused 1 text 4 Hex") }
    ensures long { refusal_text 12 TooLong ≡ said (codes "refused 12 text 6 TooLong") }
    ensures edge { refusal_text 1 (BadEvent (event.Edge (edge.SiLarge 65535))) ≡ said (codes "refused 1 event 7 Edge 3 SiLarge 65535") }
    ensures pdu { cause_text (cause.Pdu pdu.Checksum) ≡ codes "pdu-7" }
    ensures ip { cause_text (cause.Ip ip.GreType) ≡ codes "ip-10" }
{}

/// A line that is not in the grammar, or whose event is not allowed, ends a schedule.
#[tactic(auto, unfolding(domain_model::specs::World::first_world, domain_model::specs::Step::happens, wire_base::specs::model::Flooding::first_control, wire_base::specs::model::Flooding::started, wire_base::specs::model::Flooding::new_flood, wire_base::specs::model::Flooding::mark_all, wire_base::specs::model::Flooding::forget, wire_base::specs::model::Flooding::send, wire_base::specs::model::Flooding::send_of, wire_base::specs::model::Flooding::sent_on, wire_base::specs::model::OwnLsp::own_lsp, wire_base::specs::model::OwnLsp::own_content, wire_base::specs::model::Checksum::check_sum, wire_base::specs::model::Pdu::row_tlvs, wire_base::specs::model::Pdu::blocks_within, domain_model::specs::Faults::event_fault, domain_model::specs::World::in_flight, domain_model::specs::Run::first_run, domain_model::specs::Run::goes_on, domain_model::specs::Run::does, domain_model::specs::Run::line_done, replay_text::specs::Schedule::router_named, replay_text::specs::Schedule::link_named, replay_text::specs::Schedule::frame_named, replay_text::specs::Schedule::event_line, replay_text::specs::Schedule::schedule_words, replay_text::specs::Schedule::schedule_line, replay_text::specs::Pieces::words_of, replay_text::specs::Tokens::number_of, domain_replay::specs::Texts::events_text, domain_replay::specs::Texts::capture_text, domain_replay::specs::Texts::run_text, domain_replay::specs::Texts::report_text, domain_replay::specs::Texts::lines_reach, domain_replay::specs::Texts::schedule_reaches, domain_model::specs::World::ids_in_flight))]
pub fn refused_lines()
    ensures frame { (schedule_reaches pair too_few).refused ≡ Some (3, BadEvent (event.NoFrame 5 3)) }
    ensures line { refusal_text 3 (BadEvent (event.NoFrame 5 3)) ≡ said (codes "refused 3 event 5 NoFrame 5 3") }
    ensures name { (schedule_reaches pair nobody).refused ≡ Some (2, BadText text.Name) }
    ensures nothing { run_text pair (schedule_reaches pair nobody).run ≡ [] }
{}
