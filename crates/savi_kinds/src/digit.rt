ghost use Rattle.std.specs.Prelude.{◌≡◌, ◌<◌};
ghost use Rattle.savi_kinds.specs.MacText.{hex_digit};

// The lower-case hexadecimal digit of a number below 16.
pub fn put_digit(value: u8) -> char
    requires { value < 16 }
    ensures digit { result ≡ hex_digit value }
    ensures ascii { result < 128 }
{
    if value < 10 {
        char::from(b'0' + value)
    } else {
        char::from(b'a' + (value - 10))
    }
}
