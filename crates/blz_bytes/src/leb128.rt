//! LEB128 numbers (DWARF 5 section 7.6).
ghost use Rattle.std.specs.Prelude.{◌≡◌, ◌≤◌, ◌<◌, ◌^◌, IfSome, length, option_map};
ghost use Rattle.blz_model.specs.LebNumbers.{leb_in, uleb, sleb, signed, fits_i64};

use blz_model::Leb;

/// The seven-bit groups of a number of at most ten bytes.
fn leb_at(bytes: &[u8], at: usize) -> Option<(Leb, usize)>
    ensures value { result ≡ leb_in 10 bytes.now at }
    ensures within { IfSome result (λ r. (at < r.1) × (r.1 ≤ length bytes.now)) }
    ensures small { IfSome result (λ r. (r.0.value < r.0.weight) × (r.0.weight ≤ 2 ^ 70)) }
{
    if at > bytes.len() {
        return None;
    }
    // nine bytes fit a u64
    let mut value: u64 = 0;
    let mut factor: u64 = 1;
    for i in 0..9 {
        if bytes.len() - at <= i {
            return None;
        }
        let byte = bytes[at + i];
        let low = u64::from(byte % 128);
        value += low * factor;
        factor *= 128;
        if byte < 128 {
            let leb = Leb {
                value: u128::from(value),
                weight: u128::from(factor),
                negative: byte >= 64,
            };
            return Some((leb, at + i + 1));
        }
    }
    if bytes.len() - at <= 9 {
        return None;
    }
    let last = bytes[at + 9];
    if last >= 128 {
        return None;
    }
    let leb = Leb {
        value: u128::from(value) + u128::from(last) * u128::from(factor),
        weight: u128::from(factor) * 128,
        negative: last >= 64,
    };
    Some((leb, at + 10))
}

/// An unsigned number; none where it does not end within ten bytes or the slice, or is 2 ^ 64 or more.
#[inline(always)]
#[tactic(auto, unfolding(blz_model::specs::LebNumbers::uleb))]
pub fn uleb_at(bytes: &[u8], at: usize) -> Option<(u64, usize)>
    ensures value { result ≡ uleb bytes.now at }
    ensures within { IfSome result (λ r. (at < r.1) × (r.1 ≤ length bytes.now)) }
{
    // most numbers have one byte
    if at < bytes.len() && bytes[at] < 128 {
        return Some((u64::from(bytes[at]), at + 1));
    }
    // and most others two
    if at < bytes.len() && bytes.len() - at > 1 && bytes[at + 1] < 128 {
        let value = u64::from(bytes[at]) - 128 + u64::from(bytes[at + 1]) * 128;
        return Some((value, at + 2));
    }
    let (leb, next) = leb_at(bytes, at)?;
    if leb.value >= 1 << 64 {
        return None;
    }
    Some((leb.value as u64, next))
}

/// The value of a number with its sign, where it fits, and the place behind it.
#[inline(always)]
fn signed_of(leb: Leb, next: usize) -> Option<(i64, usize)>
    requires { (leb.value < leb.weight) × (leb.weight ≤ 2 ^ 70) }
    ensures value { result ≡ option_map (λ v. (v, next)) (fits_i64 (signed leb)) }
    ensures place { IfSome result (λ r. r.1 ≡ next) }
{
    let value = if leb.negative {
        leb.value as i128 - leb.weight as i128
    } else {
        leb.value as i128
    };
    if value < -(1 << 63) || value >= 1 << 63 {
        return None;
    }
    Some((value as i64, next))
}

/// A signed number; none where it does not end within ten bytes or the slice, or does not fit.
#[inline(always)]
pub fn sleb_at(bytes: &[u8], at: usize) -> Option<(i64, usize)>
    ensures value { result ≡ sleb bytes.now at }
    ensures within { IfSome result (λ r. (at < r.1) × (r.1 ≤ length bytes.now)) }
{
    // most numbers have one byte
    if at < bytes.len() && bytes[at] < 128 {
        let leb = Leb {
            value: u128::from(bytes[at]),
            weight: 128,
            negative: bytes[at] >= 64,
        };
        return signed_of(leb, at + 1);
    }
    let (leb, next) = leb_at(bytes, at)?;
    signed_of(leb, next)
}
