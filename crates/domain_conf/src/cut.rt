//! Text that is cut at an octet.
ghost use Rattle.std.specs.Prelude.{◌≡◌, ◌∷◌, ◌==◌, option_map};
ghost use Rattle.std.specs.List.{slice_split};
ghost use Rattle.domain_conf.specs.Forms.{more_pieces};

/// Returns the text before the first octet of that value, and the text after it, or `None` if the octet does not occur.
pub fn cut(text: &[u8], stop: u8) -> (&[u8], Option<&[u8]>)
    ensures { slice_split (λ c. c == stop) text.now ≡ result.0.now ∷ more_pieces stop (option_map (λ after. after.now) result.1) }
{
    for (i, octet) in text.iter().enumerate() {
        if *octet == stop {
            return (&text[..i], Some(&text[i + 1..]));
        }
    }
    (text, None)
}
