ghost use Rattle.std.specs.Prelude.{◌≡◌, ◌≤◌, ◌<◌, length, take};

/// Puts a text at the front of `out`, where there is room for it, and gives its length.
pub fn put_front(text: &[u8], out: &mut [u8]) -> usize
    ensures long { result ≡ length text.now }
    ensures written { length text.now ≤ length out.new → take result out.new ≡ text.now }
    ensures untouched { length out.new < length text.now → out.new ≡ out.old }
    ensures room { length out.new ≡ length out.old }
{
    if text.len() <= out.len() {
        out[..text.len()].copy_from_slice(text);
    }
    text.len()
}
