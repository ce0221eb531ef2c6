// Where a key stands in a sorted list.
ghost use Rattle.std.specs.Prelude.{◌≡◌, ◌≤◌, length, IfOk, IfErr};
ghost use Rattle.sg_pages.specs.Stored.{HasRisingKeys};
ghost use Rattle.sg_pages.specs.Sorted.{is_reached, first_place, IsFound, IsGap};

// Where the key's pair is, or the place for it.
pub fn search<K: Ord + Copy, V>(pairs: &[(K, V)], key: &K) -> Result<usize, usize>
    requires { HasRisingKeys K.cmp pairs.now }
    ensures found { IfOk result (IsFound K.cmp key.now pairs.now) }
    ensures absent { IfErr result (IsGap K.cmp key.now pairs.now) }
{
    let at = place(pairs, key, false);
    if at < pairs.len() {
        if key.cmp(&pairs[at].0).is_eq() {
            return Ok(at);
        }
    }
    Err(at)
}

// The place of the first pair whose key isn't below this one, or, where strict, is above it; the
// length where there is none.
pub fn place<K: Ord + Copy, V>(pairs: &[(K, V)], key: &K, strict: bool) -> usize
    requires { HasRisingKeys K.cmp pairs.now }
    ensures place { result ≡ first_place (λ pair. is_reached K.cmp key.now strict pair.0) pairs.now }
    ensures within { result ≤ length pairs.now }
{
    if strict {
        return pairs.partition_point(|pair| key.cmp(&pair.0).is_ge());
    }
    pairs.partition_point(|pair| key.cmp(&pair.0).is_gt())
}
