//! Lines of a link.

ghost use Rattle.std.specs.Prelude.{◌≡◌, ◌<◌, ◌++◌, ◌∷◌, length, take, get_or, IfSome, IfNone};
ghost use Rattle.ham_serve.specs.Lines.{HasNoEnd, IsLine};

/// The most bytes of a line with its end.
pub const MAX_LINE: usize = 4_096;

/// Where the first line ends.
#[tactic(auto, using(crate::proofs::Ends::no_end_next))]
fn line_end(bytes: &[u8]) -> Option<usize>
    ensures some { IfSome result (λ at. (at < length bytes.now) × (get_or bytes.now at 0 ≡ 10) × HasNoEnd (take at bytes.now)) }
    ensures none { IfNone result (HasNoEnd bytes.now) }
{
    for at in 0..bytes.len() {
        if bytes[at] == b'\n' {
            return Some(at);
        }
    }
    None
}

#[tactic(auto, using(crate::proofs::Ends::whole_front))]
fn front(bytes: &[u8]) -> &[u8]
    ensures { result.now ≡ take MAX_LINE bytes.now }
{
    if bytes.len() < MAX_LINE {
        bytes
    } else {
        bytes.split_at(MAX_LINE).0
    }
}

/// The first line, without its end, and what stands behind that; none where the first 4,096 bytes have no end.
pub fn first_line(bytes: &[u8]) -> Option<(&[u8], &[u8])>
    ensures some { IfSome result (λ r. bytes.now ≡ r.0.now ++ 10 ∷ r.1.now) }
    ensures line { IfSome result (λ r. IsLine r.0.now) }
    ensures none { IfNone result (HasNoEnd (take MAX_LINE bytes.now)) }
    ensures shorter { IfSome result (λ r. length r.1.now < length bytes.now) }
{
    let at = line_end(front(bytes))?;
    let (line, end) = bytes.split_at(at);
    Some((line, end.split_at(1).1))
}
