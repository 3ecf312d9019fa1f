// Numbers that a program is given as its arguments, in decimal digits.
#![tactic(auto)]

ghost use Rattle.std.specs.Prelude.{◌≡◌, ◌≤◌};
ghost use Rattle.arguments.specs.Arguments.{number_in, with_digit, argument_as};

// A number with one digit more, where it is not above the largest that is told apart.
fn with_digit(value: usize, digit: usize) -> usize
    requires value_bound { value ≤ 65535 }
    requires digit_bound { digit ≤ 9 }
    ensures { result ≡ with_digit value digit }
{
    (value * 10 + digit).min(65535)
}

// The number that a text is, if it is one or more digits and nothing else; one above 65,535 is given as that.
pub fn number(text: &[u8]) -> Option<usize>
    ensures { result ≡ argument_as (number_in text.now) }
{
    if text.is_empty() {
        return None;
    }
    let mut value = 0;
    for c in text {
        let digit = pieces::digit(*c)?;
        value = with_digit(value, digit);
    }
    Some(value)
}
