// What a call answers: the records or octets written, or the length of the part handed out; or its refusal.
#![tactic(auto)]

pub type Answer = Result<u64, Refusal>;

// A refusal holds its place: the octet of the page, or the record or list entry, at fault. The three refusals whose place is always 0 hold none, so that no
// other can be given them.
#[derive(Clone, Copy)]
pub enum Refusal {
    // A field, or coded data, does not fit whole.
    Short(u32),
    // A page marker or an ident that is due is not there.
    BadMark(u32),
    // A segment length breaks its rule.
    BadLength(u32),
    // The version is not 0.
    BadVersion(u32),
    // The mode is not 1; in writing, a layer above 3.
    BadMode(u32),
    // A coder octet that is not listed.
    BadCoder(u32),
    // A resolution that is not listed or does not divide the main one.
    BadRes(u32),
    // The page width is outside its range.
    BadWidth(u32),
    // A type that is refused, or that names a layer whose coder octet is 0.
    BadType(u32),
    // A stripe's height, sum of heights, offset or mask length; a 65th stripe; no stripe.
    BadStripe(u32),
    // The walk of a JPEG layer breaks a rule that is not Short, BadLength or BadRes.
    BadLayer(u32),
    // An octet other than 0 after the end.
    Trailing(u32),
    // The buffer is smaller than the result.
    NoRoom,
    // A rule of the sheet is broken.
    BadSheet(u32),
    // A listed layer is absent, uncoded, out of order, or runs past the samples.
    BadPlane(u32),
    // In writing, a layer's data and its record disagree, or two masks have different coders.
    Mismatch(u32),
    // No such stripe, line or layer.
    BadLine,
    // A page of more than 16,777,215 octets.
    TooLong,
}
