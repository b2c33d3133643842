// Numbers and strings put into a slice. T.44 has every number most significant octet first.
#![tactic(auto)]

ghost use Rattle.std.specs.Prelude.{◌≡◌, ◌+◌, ◌≤◌, length, take, drop};
ghost use Rattle.octets.specs.Octets.{octets16, octets32, put_at};

pub fn put16(d: &mut [u8], at: usize, v: u16)
    requires { at + 2 ≤ length d.old }
    ensures { d.new ≡ put_at d.old at (octets16 v) }
{
    d[at..at + 2].copy_from_slice(&v.to_be_bytes());
}

pub fn put32(d: &mut [u8], at: usize, v: u32)
    requires { at + 4 ≤ length d.old }
    ensures { d.new ≡ put_at d.old at (octets32 v) }
{
    d[at..at + 4].copy_from_slice(&v.to_be_bytes());
}

// Not by `copy_from_slice`: pages of 16 MB were written in 1.1 to 1.2 times the time.
pub fn put_octets(d: &mut [u8], at: usize, v: &[u8])
    requires { at + length v.now ≤ length d.old }
    ensures { d.new ≡ put_at d.old at v.now }
{
    for i in 0..v.len() {
        d[at + i] = v[i];
    }
}

// A part of `s` is lent to the one loop that copies; data of a page moves from its place to another in one call.
pub fn copy_range(d: &mut [u8], to: usize, s: &[u8], from: usize, n: usize)
    requires { (to + n ≤ length d.old) × (from + n ≤ length s.now) }
    ensures { d.new ≡ put_at d.old to (take n (drop from s.now)) }
{
    put_octets(d, to, &s[from..from + n]);
}
