// The word that a decoded store is, or verdict 11.
#![tactic(auto)]

ghost use Rattle.std.specs.Prelude.{◌≡◌, not, ◌&&◌, ◌+◌, ◌*◌, ◌/◌, ◌%◌, ◌^◌, ◌<◌, ◌≤◌, ltb};
ghost use Rattle.encoding.specs.Encoding.{encode_of, imm_of, misextends, xs_of};

use encoding::table::row_of;
use encoding::{
    Extension, Feature, Layout, QuadwordFields, ScatterFields, Store, StridedFields, multiple,
    values,
};

// Whether a class that has an extension, or has none, can have this one.
fn extends(has: bool, extension: Option<Extension>) -> bool
    ensures { result ≡ not (misextends has extension) }
{
    extension.is_some() == has
}

fn xs_of(extension: Option<Extension>) -> u32
    ensures is { result ≡ xs_of extension }
    ensures bounded { result < 2 }
{
    match extension {
        None | Some(Extension::Uxtw) => 0,
        Some(Extension::Sxtw) => 1,
    }
}

// Of n values of imm4, the one whose multiple z is; n where none is.
fn imm4_of(nreg: u32, n: u32, z: i64) -> u8
    requires { (nreg ≤ 4) × (n ≤ 16) }
    ensures { result ≡ imm_of nreg n z }
{
    let mut v: u8 = 0;
    while (v as u32) < n {
        let m = multiple(v, nreg);
        if m == z {
            return v;
        }
        v += 1;
    }
    v
}

fn scatter_fits(f: ScatterFields) -> bool
    ensures { result ≡ (ltb f.zm 32 && ltb f.pg 8 && ltb f.rn 32 && ltb f.zt 32) }
{
    (f.zm < 32) & (f.pg < 8) & (f.rn < 32) & (f.zt < 32)
}

fn scatter_sum(f: ScatterFields, xs: u32) -> u32
    requires { xs < 2 }
    ensures is { result ≡ f.zm * 65536 + xs * 16384 + f.pg * 1024 + f.rn * 32 + f.zt }
    ensures bounded { result < 0x4000000 }
{
    f.zm as u32 * 65536 + xs * 16384 + f.pg as u32 * 1024 + f.rn as u32 * 32 + f.zt as u32
}

fn encode_scatter(f: ScatterFields) -> Option<u32>
    ensures { result ≡ encode_of (Store.Scatter f) }
{
    let row = row_of(f.class, Feature::SVE)?;
    let layout = row.layout;
    let extension = f.extension;
    if scatter_fits(f) & extends(layout.xs == 1, extension) {
        Some(row.base + scatter_sum(f, xs_of(extension)))
    } else {
        None
    }
}

fn strided_fits(f: StridedFields, imm4: u8, layout: Layout) -> bool
    requires { (layout.rm < 32) × (layout.imm4 < 32) × (layout.zt < 32) }
    ensures { result ≡ (ltb f.rm (2 ^ layout.rm) && ltb f.pc 8 && ltb f.rn 32
        && ltb (f.first / 16) 2 && ltb (f.first % 16) (2 ^ layout.zt) && ltb imm4 (2 ^ layout.imm4)) }
{
    ((f.rm as u32) < values(layout.rm))
        & (f.pc < 8)
        & (f.rn < 32)
        & (f.first / 16 < 2)
        & (((f.first % 16) as u32) < values(layout.zt))
        & ((imm4 as u32) < values(layout.imm4))
}

fn strided_sum(f: StridedFields, imm4: u8) -> u32
    ensures is { result ≡ f.rm * 65536 + imm4 * 65536 + f.pc * 1024 + f.rn * 32 + f.first }
    ensures bounded { result < 0x4000000 }
{
    f.rm as u32 * 65536
        + imm4 as u32 * 65536
        + f.pc as u32 * 1024
        + f.rn as u32 * 32
        + f.first as u32
}

fn encode_strided(f: StridedFields) -> Option<u32>
    ensures { result ≡ encode_of (Store.Strided f) }
{
    let row = row_of(f.class, Feature::SME2)?;
    let layout = row.layout;
    let imm4 = imm4_of(layout.nreg, values(layout.imm4), f.multiple as i64);
    if strided_fits(f, imm4, layout) {
        Some(row.base + strided_sum(f, imm4))
    } else {
        None
    }
}

fn quadword_fits(f: QuadwordFields) -> bool
    ensures { result ≡ (ltb f.rm 32 && ltb f.pg 8 && ltb f.zn 32 && ltb f.zt 32) }
{
    (f.rm < 32) & (f.pg < 8) & (f.zn < 32) & (f.zt < 32)
}

fn quadword_sum(f: QuadwordFields) -> u32
    ensures is { result ≡ f.rm * 65536 + f.pg * 1024 + f.zn * 32 + f.zt }
    ensures bounded { result < 0x4000000 }
{
    f.rm as u32 * 65536 + f.pg as u32 * 1024 + f.zn as u32 * 32 + f.zt as u32
}

fn encode_quadword(f: QuadwordFields) -> Option<u32>
    ensures { result ≡ encode_of (Store.Quadword f) }
{
    let row = row_of(f.class, Feature::SVE2p1)?;
    if quadword_fits(f) {
        Some(row.base + quadword_sum(f))
    } else {
        None
    }
}

// The word that a store is; None, verdict 11, where its fields are refused.
pub fn encode(store: Store) -> Option<u32>
    ensures { result ≡ encode_of store }
{
    match store {
        Store::Scatter(f) => encode_scatter(f),
        Store::Strided(f) => encode_strided(f),
        Store::Quadword(f) => encode_quadword(f),
    }
}
