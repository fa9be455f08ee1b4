//! Reads numbers.
ghost use Rattle.std.specs.Prelude.{ℕ, IfSome, IfNone};
ghost use Rattle.virtiofs_host.specs.Decimal.{IsDecimal};

/// Reads a number as programs print it: one or more decimal digits with a value of at most
/// 4294967295, with no sign and no needless zero before them.
#[tactic(auto, using(crate::proofs::DecimalLemmas::digits))]
pub fn decimal(text: &[u8]) -> Option<u32>
    ensures read { IfSome result (IsDecimal text.now) }
    ensures refused { IfNone result ((number : ℕ) → ¬ IsDecimal text.now number) }
{
    let first = *text.first()?;
    if first == b'+' || (first == b'0' && text.len() > 1) {
        return None;
    }
    let Ok(text) = str::from_utf8(text) else {
        return None;
    };
    text.parse().ok()
}
