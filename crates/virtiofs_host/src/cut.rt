//! Cuts texts at a byte.
ghost use Rattle.std.specs.Prelude.{◌≡◌, ◌≢◌, ◌<◌, ◌∷◌, ◌++◌, ℕ, IfNone, IfSome, MatchOption, length, slice_index, EachIndex};
ghost use Rattle.virtiofs_map.specs.Separator.{Lacks, split_at_each};
ghost use Rattle.virtiofs_host.specs.CutParts.{parts_left};

/// Where the first byte `at` stands.
fn first_at(text: &[u8], at: u8) -> Option<usize>
    ensures absent { IfNone result (EachIndex text.now (λ k. slice_index text.now k ≢ at)) }
    ensures found { IfSome result (λ place.
        (place < length text.now) × (slice_index text.now place ≡ at)) }
    ensures first { IfSome result (λ place.
        (k : ℕ) → k < place → slice_index text.now k ≢ at) }
{
    text.iter().position(|byte| *byte == at)
}

/// The part of a text before the first byte `at`, and what follows that byte; of a text without
/// that byte the whole text, and nothing.
#[tactic(auto, using(crate::proofs::CutLemmas::first_cut))]
pub(crate) fn cut(text: &[u8], at: u8) -> (&[u8], Option<&[u8]>)
    ensures whole { MatchOption result.1 (text.now ≡ result.0.now)
        (λ rest. text.now ≡ result.0.now ++ at ∷ rest.now) }
    ensures first { Lacks at result.0.now }
    ensures parts { split_at_each at text.now ≡ result.0.now ∷ parts_left at result.1 }
{
    match first_at(text, at) {
        Some(place) => (&text[..place], Some(&text[place + 1..])),
        None => (text, None),
    }
}
