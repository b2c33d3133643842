// The stripe table: a stripe of a sheet found by its number, and a layer of it.
#![tactic(auto)]

ghost use Rattle.std.specs.Prelude.{◌≡◌, ◌<◌};
ghost use Rattle.sheet_rules.specs.Record.{height_in};
ghost use Rattle.sheet_rules.specs.StripeTable.{with_record, found_extent, find_stripe, find_layer};

use sheet_rules::{Extent, MOST_RECORDS, RECORD_SIZE, Record};

// What a record adds to the page's height: that of layer 2.
pub fn height_in(r: Record) -> u32
    ensures { (result ≡ height_in r) × (result < 65536) }
{
    if r.layer == 2 { u32::from(r.height) } else { 0 }
}

// An extent with one more record counted in. The caller counts few records, so that the sums fit. It branches, since a sheet's stripes come in
// order: sums of which most add 0 take half as long again.
pub fn with_record(k: usize, extent: Extent, r: Record) -> Extent
    requires { (extent.first < 2147483648) × (extent.layers < 2147483648) × (extent.top < 2147483648) × (extent.height < 2147483648) }
    ensures { result ≡ with_record k extent r }
{
    let s = usize::from(r.stripe);
    if s < k {
        return Extent {
            first: extent.first + 1,
            top: extent.top + height_in(r),
            ..extent
        };
    }
    if s == k {
        return Extent {
            layers: extent.layers + 1,
            height: extent.height + height_in(r),
            ..extent
        };
    }
    extent
}

pub fn found_extent(extent: Extent) -> Option<Extent>
    ensures { result ≡ found_extent extent }
{
    if extent.layers == 0 {
        None
    } else {
        Some(extent)
    }
}

// Stripe k of a sheet, of whatever octets it is made.
pub fn find_stripe(sheet: &[u8], k: usize) -> Option<Extent>
    ensures { result ≡ find_stripe sheet.now k }
{
    let n = (sheet.len() / RECORD_SIZE).min(MOST_RECORDS);
    let mut extent = Extent {
        first: 0,
        layers: 0,
        top: 0,
        height: 0,
    };
    for i in 0..n {
        extent = with_record(k, extent, sheet_record::record_at(sheet, i));
    }
    found_extent(extent)
}

// Layer l of a stripe.
pub fn find_layer(extent: Extent, l: usize) -> Option<usize>
    ensures { result ≡ find_layer extent l }
{
    if 1 <= l && l <= extent.layers as usize {
        Some(extent.first as usize + (l - 1))
    } else {
        None
    }
}
