// Words and decoded stores: which class of document 01 a word belongs to, and what its fields say. The way back is crate `encoder`.
#![tactic(auto)]

pub mod table;

ghost use Rattle.std.specs.Prelude.{◌≡◌, ◌^◌, ◌<◌, ◌≤◌, length};
ghost use Rattle.encoding.specs.Classes.{classes};
ghost use Rattle.encoding.specs.declared.Feature.TheVariants.{SVE, SME2, SVE2p1};
ghost use Rattle.encoding.specs.Decoding.{decode_of, store_of, multiple_of, extension_of};
ghost use Rattle.encoding.specs.Encoding.{class_numbered, row_numbered};
ghost use Rattle.encoding.specs.Layouts.{IsListed, number_in};

use table::{ROWS, Row, row_for, row_numbered};

// What a class needs: document 01's first three flags.
#[derive(Clone, Copy, PartialEq, Eq)]
pub enum Feature {
    SVE,
    SME2,
    SVE2p1,
}

// How a 32-bit offset is extended to 64 bits.
#[derive(Clone, Copy)]
pub enum Extension {
    Uxtw,
    Sxtw,
}

#[derive(Clone, Copy)]
pub struct ScatterFields {
    pub class: u8,
    pub zm: u8,
    // None for 64-bit offsets.
    pub extension: Option<Extension>,
    pub pg: u8,
    pub rn: u8,
    pub zt: u8,
}

#[derive(Clone, Copy)]
pub struct StridedFields {
    pub class: u8,
    pub rm: u8,
    // imm4 read as -8..7 times the number of registers; 0 where the class has no imm4.
    pub multiple: i8,
    // The counter's predicate register less 8.
    pub pc: u8,
    pub rn: u8,
    // The first register: T * 16 + Zt.
    pub first: u8,
}

#[derive(Clone, Copy)]
pub struct QuadwordFields {
    pub class: u8,
    pub rm: u8,
    pub pg: u8,
    pub zn: u8,
    pub zt: u8,
}

// A decoded store.
#[derive(Clone, Copy)]
pub enum Store {
    Scatter(ScatterFields),
    Strided(StridedFields),
    Quadword(QuadwordFields),
}

// What decoding and encoding need of a class: its number of registers, and how many bits the fields have in which classes of one
// feature differ, 0 for a field that the class lacks.
#[derive(Clone, Copy)]
pub struct Layout {
    pub nreg: u32,
    pub xs: u32,
    pub rm: u32,
    pub imm4: u32,
    pub zt: u32,
}

// What a store's elements need of its class, one number at a time: how many registers, how many values Rm can take, esize/8, msize/8
// and the scale.
#[derive(Clone, Copy)]
pub enum Number {
    Nreg,
    RmValues,
    Step,
    Size,
    Exponent,
    Scale,
}

// How many values a field of so many bits can take.
pub fn values(bits: u32) -> u32
    requires { bits < 32 }
    ensures { result ≡ 2 ^ bits }
{
    1 << bits
}

// imm4 read as -8..7, times the number of registers.
pub fn multiple(imm4: u8, nreg: u32) -> i64
    requires { (imm4 < 16) × (nreg ≤ 4) }
    ensures { result ≡ multiple_of nreg imm4 }
{
    if imm4 < 8 {
        (imm4 as u32 * nreg) as i64
    } else {
        -(((16 - imm4) as u32 * nreg) as i64)
    }
}

// xs 0 is UXTW and 1 is SXTW, in a class that has xs.
fn extension_of(has: bool, xs: u32) -> Option<Extension>
    ensures { result ≡ extension_of has xs }
{
    if !has {
        return None;
    }
    Some(if xs == 0 {
        Extension::Uxtw
    } else {
        Extension::Sxtw
    })
}

// The fields of a word of the row's class, by the class's feature.
fn scatter(row: Row, word: u32) -> ScatterFields
    requires { IsListed row × (row.feature ≡ SVE) }
    ensures { Store.Scatter result ≡ store_of (class_numbered row.number) word }
{
    let layout = row.layout;
    let extension = extension_of(layout.xs == 1, word / 16384 % values(layout.xs));
    ScatterFields {
        class: row.number,
        zm: (word / 65536 % 32) as u8,
        extension,
        pg: (word / 1024 % 8) as u8,
        rn: (word / 32 % 32) as u8,
        zt: (word % 32) as u8,
    }
}

fn strided(row: Row, word: u32) -> StridedFields
    requires { IsListed row × (row.feature ≡ SME2) }
    ensures { Store.Strided result ≡ store_of (class_numbered row.number) word }
{
    let layout = row.layout;
    let imm4 = (word / 65536 % values(layout.imm4)) as u8;
    let multiple = multiple(imm4, layout.nreg);
    StridedFields {
        class: row.number,
        rm: (word / 65536 % values(layout.rm)) as u8,
        multiple: multiple as i8,
        pc: (word / 1024 % 8) as u8,
        rn: (word / 32 % 32) as u8,
        first: (word / 16 % 2 * 16 + word % values(layout.zt)) as u8,
    }
}

fn quadword(row: Row, word: u32) -> QuadwordFields
    requires { IsListed row × (row.feature ≡ SVE2p1) }
    ensures { Store.Quadword result ≡ store_of (class_numbered row.number) word }
{
    QuadwordFields {
        class: row.number,
        rm: (word / 65536 % 32) as u8,
        pg: (word / 1024 % 8) as u8,
        zn: (word / 32 % 32) as u8,
        zt: (word % 32) as u8,
    }
}

// The store that a word is; None, verdict 4, where it is of no class. No flag is looked at. Inlined: a called function puts its answer,
// nine bytes, into memory byte by byte, and the caller's load of two of them waits.
#[inline(always)]
pub fn decode(word: u32) -> Option<Store>
    ensures { result ≡ decode_of word }
{
    let row = row_for(word)?;
    Some(match row.feature {
        Feature::SVE => Store::Scatter(scatter(row, word)),
        Feature::SME2 => Store::Strided(strided(row, word)),
        Feature::SVE2p1 => Store::Quadword(quadword(row, word)),
    })
}

// The feature of the class with this number; SVE where the list has no such class.
pub fn feature_of(class: u8) -> Feature
    ensures { result ≡ (class_numbered class).feature }
{
    match row_numbered(class) {
        Some(row) => row.feature,
        None => Feature::SVE,
    }
}

// A number of the class that has this number in the list.
pub fn number_for(class: u8, number: Number) -> u32
    requires { row_numbered class < length classes }
    ensures { result ≡ number_in (class_numbered class) number }
{
    // Not `row_numbered(class).unwrap()`, whose test makes a contiguous store at VB 16 7 % slower.
    let row = &ROWS[(class - 1) as usize];
    match number {
        Number::Nreg => row.layout.nreg,
        Number::RmValues => values(row.layout.rm),
        Number::Step => row.step,
        Number::Size => row.size,
        Number::Exponent => row.exponent,
        Number::Scale => row.scale,
    }
}
