// For bench/sha1.
ghost use Rattle.std.specs.Prelude.{◌≡◌};
ghost use Rattle.bench.specs.Chain.{chain};

// `count` one-block digests in a chain: of the number i in eight bytes and the first word of the digest before in
// four. The first word of the last.
#[unsafe(no_mangle)]
pub extern "C" fn bench_sha1_chain(count: u64) -> u32
    ensures { result ≡ chain count }
{
    let mut word = 0;
    for i in 0..count {
        word = sha1_digest::first_word(i, word);
    }
    word
}
