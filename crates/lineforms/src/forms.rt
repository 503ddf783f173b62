// What rows of numbers stand for.
ghost use Rattle.std.specs.Prelude.{◌≡◌, ◌+◌, ◌≤◌, length};
ghost use Rattle.lineforms.specs.Forms.{profile_form, every_other, facts_in, opening_in, indices_in};

use account::OpeningForm;
use facts::{FactsForm, ProfileForm};
use figures::{NcSum, NeSum};
use std::array::from_fn;
use words::all_numbers;

// Six numbers, every other one from a place on.
fn every_other(n: &[u64], at: usize) -> [u64; 6]
    requires { at + 11 ≤ length n.now }
    ensures { result ≡ every_other n.now at }
{
    from_fn(|circuit| n[at + 2 * circuit])
}

// The profile that ten numbers give: class, marks, power, exempt power and six kinds.
fn profile_form(n: &[u64]) -> ProfileForm
    requires { 10 ≤ length n.now }
    ensures { result ≡ profile_form n.now }
{
    ProfileForm {
        class: n[0],
        marks: n[1],
        power: n[2],
        exempt: n[3],
        kinds: from_fn(|circuit| n[4 + circuit]),
    }
}

// The facts that a text gives, where it is 25 numbers: a profile, six circuits' kWh by day and by night in turn, months and two sums.
// By their places, which are those of the form.
pub fn facts_in(text: &[u8]) -> Option<FactsForm>
    ensures { result ≡ facts_in text.now }
{
    let numbers = all_numbers(text)?;
    let n = numbers.as_slice();
    if n.len() != 25 {
        return None;
    }
    Some(FactsForm {
        profile: profile_form(n),
        day: every_other(n, 10),
        night: every_other(n, 11),
        months: n[22],
        ne: NeSum::new(n[23]),
        nc: NcSum::new(n[24]),
    })
}

// The opening that a text gives, where it is 23 numbers: a profile, the first month and the twelve registers' indices.
pub fn opening_in(text: &[u8]) -> Option<OpeningForm>
    ensures { result ≡ opening_in text.now }
{
    let numbers = all_numbers(text)?;
    let n = numbers.as_slice();
    if n.len() != 23 {
        return None;
    }
    Some(OpeningForm {
        profile: profile_form(n),
        first: n[10],
        indices: n[11..].try_into().ok()?,
    })
}

// The twelve registers' indices that a text gives, where it is twelve numbers.
pub fn indices_in(text: &[u8]) -> Option<[u64; 12]>
    ensures { result ≡ indices_in text.now }
{
    all_numbers(text)?.as_slice().try_into().ok()
}
