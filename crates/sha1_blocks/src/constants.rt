// The constants of section 4.2.1, each named after the first of its twenty rounds.
ghost use Rattle.std.specs.Prelude.{◌≡◌};
ghost use Rattle.sha1_blocks.specs.Fips180.{K};

const K0: u32 = 0x5a827999;

const K20: u32 = 0x6ed9eba1;

const K40: u32 = 0x8f1bbcdc;

const K60: u32 = 0xca62c1d6;

// The standard's K_t, by its name: a function of t, as there.
pub fn k(t: usize) -> u32
    ensures { result ≡ K t }
{
    if t < 20 {
        return K0;
    }
    if t < 40 {
        return K20;
    }
    if t < 60 {
        return K40;
    }
    K60
}
