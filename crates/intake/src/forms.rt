// The form of a name line, told as it comes in: whether it is a ConnMan file name, at any length.
ghost use Rattle.std.specs.Prelude.{◌≡◌};
ghost use Rattle.intake.specs.Forms.{form_after, form_from, complete};
ghost use Rattle.intake.specs.declared.Form.TheVariants.{Empty, Stem, Suffix};

use crate::Form;
use text::classes;

// The form of a line whose first byte is b.
fn after_nothing(b: u8) -> Form
    ensures { result ≡ form_after Empty b }
{
    if classes::is_alphanumeric(b) {
        return Form::Stem;
    }
    Form::Broken
}

// The form when b comes behind letters and digits.
fn after_stem(b: u8) -> Form
    ensures { result ≡ form_after Stem b }
{
    if classes::is_alphanumeric(b) {
        return Form::Stem;
    }
    if b == 46 {
        return Form::Suffix(1);
    }
    Form::Broken
}

// The form when b comes behind n bytes of `.config`.
fn after_suffix(n: usize, b: u8) -> Form
    ensures { result ≡ form_after (Suffix n) b }
{
    if 7 <= n {
        return Form::Broken;
    }
    let suffix = b".config";
    if b == suffix[n] {
        return Form::Suffix(n + 1);
    }
    Form::Broken
}

// The form with one more byte. A `match` over the four states: each is left in its own way, and a suffix has its length with it.
fn after(f: Form, b: u8) -> Form
    ensures { result ≡ form_after f b }
{
    match f {
        Form::Empty => after_nothing(b),
        Form::Stem => after_stem(b),
        Form::Suffix(n) => after_suffix(n, b),
        Form::Broken => Form::Broken,
    }
}

// The form with the bytes of s behind.
pub fn over(f: Form, s: &[u8]) -> Form
    ensures { result ≡ form_from f s.now }
{
    let mut form = f;
    for &b in s {
        form = after(form, b);
    }
    form
}

// Whether a name line of this form is a ConnMan file name.
pub fn is_connman(f: Form) -> bool
    ensures { result ≡ complete f }
{
    matches!(f, Form::Suffix(7))
}
