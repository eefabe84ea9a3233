//! Who sends messages.

ghost use Rattle.std.specs.Prelude.{Some, bytes_eq};
ghost use Rattle.std.specs.Cmp.{on_equiv, on_per, partial_equiv_from_equiv};
ghost use Rattle.std.specs.Cmp.Lexicographic.{bytes_decides, nat_list_eq_equiv};
ghost use Rattle.std.specs.Hash as fed;
ghost use Rattle.dsx_messages.specs.Modem.{address_number, hex_pair, hex_digits};

use std::fmt::{self, Display};
use std::hash::{Hash, Hasher};

/// The hardware address of a cable modem, shown as 12 upper-case hexadecimal digits with nothing between them.
#[derive(Clone, Copy, Debug)]
pub struct Modem(pub [u8; 6]);

impl PartialEq for Modem {
    ghost eq = { λ a b. bytes_eq a.0 b.0 };

    ghost laws = { on_per (λ m. m.0) (partial_equiv_from_equiv nat_list_eq_equiv) };

    /// Returns whether both addresses are equal, byte by byte and with no loop.
    fn eq(&self, other: &Modem) -> bool {
        let [a, b, c, d, e, f] = self.0;
        let [g, h, i, j, k, l] = other.0;
        a == g && b == h && c == i && d == j && e == k && f == l
    }
}

impl Eq for Modem {
    ghost laws = { on_equiv (λ m. m.0) nat_list_eq_equiv };
}

impl Hash for Modem {
    ghost hash_input = { λ m. fed.u64 (address_number m.0) };

    ghost respects_eq = { (fed.on_Alike (λ m. m.0) (fed.same_Alike (λ address. fed.u64 (address_number address)) bytes_decides)).fed };

    /// Hashes the address as one number of 64 bits: a hasher takes it in one step.
    fn hash<H: Hasher>(&self, state: &mut H) {
        let [a, b, c, d, e, f] = self.0;
        state.write_u64(u64::from_be_bytes([0, 0, a, b, c, d, e, f]));
    }
}

/// A byte, shown as two upper-case hexadecimal digits.
#[derive(Clone, Copy)]
struct HexByte(u8);

impl Display for HexByte {
    ghost output = { λ byte. Some (hex_pair byte.0) };

    #[tactic(auto, using(std::proofs::lemmas::Fmt::hex_byte))]
    fn fmt<W: fmt::Write>(&self, f: &mut fmt::Formatter<W>) -> fmt::Result {
        let byte = self.0;
        write!(f, "{byte:02X}")
    }
}

impl Display for Modem {
    ghost output = { λ modem. Some (hex_digits modem.0) };

    fn fmt<W: fmt::Write>(&self, f: &mut fmt::Formatter<W>) -> fmt::Result {
        let [a, b, c, d, e, g] = self.0;
        let (a, b, c) = (HexByte(a), HexByte(b), HexByte(c));
        let (d, e, g) = (HexByte(d), HexByte(e), HexByte(g));
        write!(f, "{a}{b}{c}{d}{e}{g}")
    }
}
