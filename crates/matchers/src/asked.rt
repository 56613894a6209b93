// What every matcher asks first of a stretch.
ghost use Rattle.std.specs.Prelude.{◌≡◌};
ghost use Rattle.std.specs.Result.{result_map_both};
ghost use Rattle.matchers.specs.Matchers.{of_stretch};

use rules::held::HeldTerm;
use rules::refusal::Refusal;

// The term that is held, for a stretch of at most 127 bytes.
pub fn held_for<'a>(term: &'a Option<HeldTerm>, stretch: &[u8]) -> Result<&'a HeldTerm, Refusal>
    ensures value { result_map_both (λ h. h.now) (λ e. e) result ≡ of_stretch (λ h _. h) term.now stretch.now }
{
    let term = term.as_ref().ok_or(Refusal::NoTermHeld)?;
    if stretch.len() > 127 {
        return Err(Refusal::StretchTooLong);
    }
    Ok(term)
}
