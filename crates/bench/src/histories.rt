// For bench/history.
// Writes the transcript of a text into `out`, and answers how many bytes it has, 0 where it is refused.
#[unsafe(no_mangle)]
pub extern "C" fn bench_history_run(text: &[u8], out: &mut [u8]) -> usize {
    history::transcript(text, out).unwrap_or(0)
}
