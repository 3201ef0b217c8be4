ghost use Rattle.std.specs.Prelude.{◌≡◌, length};
ghost use Rattle.s38_strings.specs.Bits.{IsOnBits, byte_of, combined};

use s38_base::Op;

fn byte_of(op: Op, x: u8, y: u8) -> u8
    requires { IsOnBits op }
    ensures { result ≡ byte_of op x y }
{
    match op {
        Op::And => x & y,
        Op::Or => x | y,
        Op::Xor => x ^ y,
        _ => 255 - x,
    }
}

/// Combines two strings bit by bit; NOT is of the first alone.
pub fn bits(op: Op, into: &mut [u8], a: &[u8], b: &[u8])
    requires on_bits { IsOnBits op }
    requires first { length a.now ≡ length into.old }
    requires second { length b.now ≡ length into.old }
    ensures { into.new ≡ combined op (length into.old) a.now b.now }
{
    for k in 0..into.len() {
        into[k] = byte_of(op, a[k], b[k]);
    }
}
