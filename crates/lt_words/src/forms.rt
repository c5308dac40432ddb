//! What stands behind the word of a command on a form: the dimension, the number of crossings, and the numbers of the form.

ghost use Rattle.std.specs.Prelude.{◌≡◌, ◌<◌, ◌≤◌, ◌*◌, ◌^◌, ℕ, ℤ, List, [], ◌∷◌, codes, length, map, IfOk, IfErr};
ghost use Rattle.std.specs.Fmt.{decimal, signed_decimal};
ghost use Rattle.std.specs.List.{All, flat_map};
ghost use Rattle.lt_model.specs.Forms.{numbers_of_form};
ghost use Rattle.lt_lattice.specs.Ranges.{IsWithin};
ghost use Rattle.lt_words.specs.declared.words.Kind.{Kind};
ghost use Rattle.lt_words.specs.Grammar.{texts, IsDimension, AreGiven, SpellsForm, SpellsForms, FaultAt, place_of, most_crossings, most_of_form, most_in_section};
ghost use Rattle.lt_words.specs.Parts.{HasFront, HasWords, IsCut, IsOnForm, kind_word};

use crate::limits::{MOST_CROSSINGS, MOST_IN_SECTION, MOST_OF_FORM};
use crate::places::{dimension_at, end_at, integer_at, number_at};
use crate::words::WordsError;
use arrayvec::ArrayVec;
use lt_lattice::Form;

/// The number of the numbers of a form in `d` variables.
fn numbers_of(d: u8) -> u32
    requires { IsDimension d }
    ensures value { result ≡ numbers_of_form d }
    ensures few { result ≤ 21 }
{
    match d {
        2 => 3,
        3 => 6,
        4 => 10,
        5 => 15,
        _ => 21,
    }
}

/// The form in `d` variables whose numbers, at most `most` in absolute value, stand from a place on.
fn form_at(words: &[&str], place: u32, d: u8, most: u64) -> Result<Form, WordsError>
    requires dimension { IsDimension d }
    requires near { place ≤ 2 ^ 16 }
    requires small { most ≤ 2 ^ 40 }
    ensures numbers { IfOk result (λ q. length q ≡ numbers_of_form d) }
    ensures within { IfOk result (λ q. All (IsWithin most) q) }
    ensures found { IfOk result (λ q. HasWords (texts words.now) place (map signed_decimal q)) }
    ensures cut { IfErr result (λ e. IsCut (texts words.now) place (numbers_of_form d) most (place_of e)) }
{
    let mut numbers: ArrayVec<i128, 21> = ArrayVec::new();
    for i in 0..numbers_of(d) {
        numbers.push(integer_at(words, place + i, most)?);
    }
    Ok(Form::of(d, numbers.as_slice()))
}

/// The number of crossings and the form of a command.
pub fn read_form(words: &[&str]) -> Result<(u32, Form), WordsError>
    ensures crossings { IfOk result (λ p. p.0 ≤ most_crossings) }
    ensures within { IfOk result (λ p. All (IsWithin most_of_form) p.1) }
    ensures words { IfOk result (λ p. (w : List ℕ) → HasFront (texts words.now) (w ∷ []) → SpellsForm w p.0 p.1
        (texts words.now)) }
    ensures fault { IfErr result (λ e. (k : Kind) → IsOnForm k → HasFront (texts words.now) (kind_word k ∷ []) →
        FaultAt (texts words.now) (place_of e)) }
{
    let d = dimension_at(words)?;
    let steps = number_at(words, 2, 0, MOST_CROSSINGS)?;
    let form = form_at(words, 3, d, MOST_OF_FORM)?;
    end_at(words, 3 + form.numbers().len() as u32)?;
    Ok((steps as u32, form))
}

/// So many forms in `d` variables whose numbers stand from a place on, one form after the other.
fn forms_at(words: &[&str], place: u32, d: u8, count: u32) -> Result<ArrayVec<Form, 21>, WordsError>
    requires dimension { IsDimension d }
    requires near { place ≤ 2 ^ 8 }
    requires few { count ≤ 21 }
    ensures count { IfOk result (λ fs. length fs.items ≡ count) }
    ensures numbers { IfOk result (λ fs. All (λ q. length q ≡ numbers_of_form d) fs.items) }
    ensures within { IfOk result (λ fs. All (All (IsWithin most_in_section)) fs.items) }
    ensures found { IfOk result (λ fs. HasWords (texts words.now) place
        (map signed_decimal (flat_map (λ q. q) fs.items))) }
    ensures cut { IfErr result (λ e. IsCut (texts words.now) place (count * numbers_of_form d) most_in_section
        (place_of e)) }
{
    let each = numbers_of(d);
    let mut forms: ArrayVec<Form, 21> = ArrayVec::new();
    for i in 0..count {
        forms.push(form_at(words, place + i * each, d, MOST_IN_SECTION)?);
    }
    Ok(forms)
}

/// The number of crossings and the forms of a section.
pub fn read_forms(words: &[&str]) -> Result<(u32, ArrayVec<Form, 21>), WordsError>
    requires { HasFront (texts words.now) (codes "section" ∷ []) }
    ensures crossings { IfOk result (λ p. p.0 ≤ most_crossings) }
    ensures given { IfOk result (λ p. AreGiven p.1.items) }
    ensures words { IfOk result (λ p. SpellsForms p.0 p.1.items (texts words.now)) }
    ensures fault { IfErr result (λ e. FaultAt (texts words.now) (place_of e)) }
{
    let d = dimension_at(words)?;
    let steps = number_at(words, 2, 0, MOST_CROSSINGS)?;
    let each = numbers_of(d);
    let count = number_at(words, 3, 1, u64::from(each))?;
    let forms = forms_at(words, 4, d, count as u32)?;
    end_at(words, 4 + count as u32 * each)?;
    Ok((steps as u32, forms))
}
