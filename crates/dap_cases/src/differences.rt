ghost use Rattle.std.specs.Prelude.{◌≡◌, MatchOption};
ghost use Rattle.dap_cases.specs.Verdicts.{DiffersAt};

/// The first place at which two texts are not the same: other bytes stand there, or one of them ends.
#[tactic(auto, using(crate::proofs::Places::differences))]
pub fn first_difference(found: &[u8], wanted: &[u8]) -> Option<usize>
    ensures { MatchOption result (found.now ≡ wanted.now) (λ place. DiffersAt place found.now wanted.now) }
{
    for place in 0..found.len() {
        if place == wanted.len() {
            return Some(place);
        }
        if found[place] != wanted[place] {
            return Some(place);
        }
    }
    if found.len() < wanted.len() {
        return Some(found.len());
    }
    None
}
