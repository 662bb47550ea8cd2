ghost use Rattle.std.specs.Prelude.{◌≡◌, ◌↔◌, ◌+◌, IsTrue};
ghost use Rattle.std.specs.List.{list_any};
ghost use Rattle.wire_base.specs.model.BierInfo.{share_label, any_overlap, Overlap};

use wire_base::LabelRange;

fn last_label(r: &LabelRange) -> u64
    ensures { result ≡ r.now.label + r.now.max_si }
{
    u64::from(r.label) + u64::from(r.max_si)
}

fn share(a: &LabelRange, b: &LabelRange) -> bool
    ensures { result ≡ share_label a.now b.now }
{
    u64::from(a.label) <= last_label(b) && u64::from(b.label) <= last_label(a)
}

/// Returns whether a range shares a label with one of the others.
fn shares_with(r: &LabelRange, others: &[LabelRange]) -> bool
    ensures { result ≡ list_any (share_label r.now) others.now }
{
    others.iter().any(|other| share(r, other))
}

#[tactic(auto, unfolding(wire_base::specs::model::BierInfo::any_overlap))]
fn any_shared(ranges: &[LabelRange]) -> bool
    ensures { result ≡ any_overlap ranges.now }
{
    let mut rest = ranges;
    'later: loop {
        match rest {
            [] => return false,
            [first, others @ ..] => {
                if shares_with(first, others) {
                    return true;
                }
                rest = others;
            }
        }
    }
}

/// Returns whether ranges at two different indices share a label (RFC 8401, 6.2).
pub fn overlaps(ranges: &[LabelRange]) -> bool
    ensures shared { IsTrue result ↔ Overlap ranges.now }
    ensures value { result ≡ any_overlap ranges.now }
{
    any_shared(ranges)
}
