//! The lines of a report that answer a question: whether the domain is quiet, and which BFR-ids are reached.
ghost use Rattle.std.specs.Prelude.{◌≡◌, ◌++◌, ◌∷◌, [], IfOk, OnOk, OnErr, codes};
ghost use Rattle.std.specs.Fmt.{decimal};
ghost use Rattle.quiet_domain.specs.declared.answer.Quiet.TheVariants as answers;
ghost use Rattle.replay_text.specs.Report.{line_of};
ghost use Rattle.replay_report.specs.Lines as spec;

use crate::lines::{name_at, push_front};
use quiet_domain::Quiet;
use replay_text::push_ids;
use run_texts::push_lsp_id;
use std::alloc::Global;
use wire_base::{LspId, M, Octets, RouterConf};

/// Appends the line that names a router whose sequence number space is exhausted.
fn push_spent(out: &mut Octets, routers: &[RouterConf], line: u32, router: u16) -> M<()>
    ensures { OnOk result (out.new ≡ out.old ++ spec.quiet_text routers.now line (answers.Spent router)) }
{
    out.append_number(u64::from(line))?;
    out.append(b" quiet no spent ")?;
    out.append(name_at(routers, router))?;
    out.push(b'\n')
}

/// Appends the line that names the ends of a link of which one interface is up.
fn push_half(out: &mut Octets, routers: &[RouterConf], line: u32, a: u16, b: u16) -> M<()>
    ensures { OnOk result (out.new ≡ out.old ++ spec.quiet_text routers.now line (answers.Half a b)) }
{
    push_front(out, line, b" quiet no half ", name_at(routers, a))?;
    out.append(name_at(routers, b))?;
    out.push(b'\n')
}

/// Appends the line that names the ends of a link across which the LSDBs differ, and the LSP.
fn push_data(
    out: &mut Octets,
    routers: &[RouterConf],
    line: u32,
    a: u16,
    b: u16,
    id: LspId,
) -> M<()>
    ensures { OnOk result (out.new ≡ out.old ++ spec.quiet_text routers.now line (answers.Data a b id)) }
{
    push_front(out, line, b" quiet no data ", name_at(routers, a))?;
    out.append(name_at(routers, b))?;
    out.push(b' ')?;
    push_lsp_id(out, id)?;
    out.push(b'\n')
}

/// Appends the line that says that the domain is quiet.
fn push_yes(out: &mut Octets, line: u32) -> M<()>
    ensures { OnOk result (out.new ≡ out.old ++ line_of (decimal line ∷ codes "quiet" ∷ codes "yes" ∷ [])) }
{
    out.append_number(u64::from(line))?;
    out.append(b" quiet yes\n")
}

/// Appends the line that says whether the domain is quiet.
fn push_answer(out: &mut Octets, routers: &[RouterConf], line: u32, quiet: Quiet) -> M<()>
    ensures { OnOk result (out.new ≡ out.old ++ spec.quiet_text routers.now line quiet) }
{
    match quiet {
        Quiet::Yes => push_yes(out, line),
        Quiet::Spent(router) => push_spent(out, routers, line, router),
        Quiet::Half(a, b) => push_half(out, routers, line, a, b),
        Quiet::Data(a, b, id) => push_data(out, routers, line, a, b, id),
    }
}

/// Returns that line as a text of its own.
fn quiet_line(alloc: Global, routers: &[RouterConf], line: u32, quiet: Quiet) -> M<Octets>
    ensures { IfOk result (λ text. text ≡ spec.quiet_text routers.now line quiet) }
{
    let mut text = Octets::new(alloc);
    push_answer(&mut text, routers, line, quiet)?;
    Ok(text)
}

/// Appends the line that says whether the domain is quiet: `LINE quiet yes`, or the first reason why not, as
/// `LINE quiet no spent R`, `LINE quiet no half A B` or `LINE quiet no data A B ID` with the names of the routers and an
/// LSP ID such as `0000.0000.0001.00-00`. If an allocation fails, nothing is appended.
pub fn push_quiet(
    alloc: Global,
    out: &mut Octets,
    routers: &[RouterConf],
    line: u32,
    quiet: Quiet,
) -> M<()>
    ensures ok { OnOk result (out.new ≡ out.old ++ spec.quiet_text routers.now line quiet) }
    ensures err { OnErr result (out.new ≡ out.old) }
{
    let text = quiet_line(alloc, routers, line, quiet)?;
    out.append(text.as_slice())
}

/// Returns the line with the BFR-ids that are reached, as a text of its own.
fn cover_line(alloc: Global, line: u32, ids: &[u16]) -> M<Octets>
    ensures { IfOk result (λ text. text ≡ spec.cover_text line ids.now) }
{
    let mut text = Octets::new(alloc);
    text.append_number(u64::from(line))?;
    text.append(b" cover ")?;
    push_ids(&mut text, ids)?;
    text.push(b'\n')?;
    Ok(text)
}

/// Appends the line with the BFR-ids of an injection that are reached: `LINE cover IDS`, where the ids are separated by
/// commas, or `-` for none. If an allocation fails, nothing is appended.
pub fn push_cover(alloc: Global, out: &mut Octets, line: u32, ids: &[u16]) -> M<()>
    ensures ok { OnOk result (out.new ≡ out.old ++ spec.cover_text line ids.now) }
    ensures err { OnErr result (out.new ≡ out.old) }
{
    let text = cover_line(alloc, line, ids)?;
    out.append(text.as_slice())
}
