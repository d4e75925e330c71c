// Decoded stores as eight numbers, and back: class, Zm or Rm, extension, Pg or Pc, Rn or Zn, Zt or first register, the signed
// multiple in two's complement, zero.
#![tactic(auto)]

ghost use Rattle.std.specs.Prelude.{◌≡◌, ◌<◌, [], ◌∷◌};
ghost use Rattle.encoding.specs.declared.Feature.TheVariants.{SVE, SME2, SVE2p1};
ghost use Rattle.encoding.specs.Answers.{extension_number, store_numbers};
ghost use Rattle.codec.specs.Codec.{entry, extension_given, store_given, misgiven, encode_given};
ghost use Rattle.codec.specs.Narrow.{signed_byte, narrow, Narrow};

use encoding::{Extension, Feature, QuadwordFields, ScatterFields, Store, StridedFields};

fn number_of(extension: Option<Extension>) -> u64
    ensures { result ≡ extension_number extension }
{
    match extension {
        None => 0,
        Some(Extension::Uxtw) => 1,
        Some(Extension::Sxtw) => 2,
    }
}

fn scatter_numbers(f: ScatterFields, extension: u64) -> [u64; 8]
    ensures { result ≡ f.class ∷ f.zm ∷ extension ∷ f.pg ∷ f.rn ∷ f.zt ∷ 0 ∷ 0 ∷ [] }
{
    [
        f.class as u64,
        f.zm as u64,
        extension,
        f.pg as u64,
        f.rn as u64,
        f.zt as u64,
        0,
        0,
    ]
}

fn strided_numbers(f: StridedFields, multiple: u64) -> [u64; 8]
    ensures { result ≡ f.class ∷ f.rm ∷ 0 ∷ f.pc ∷ f.rn ∷ f.first ∷ multiple ∷ 0 ∷ [] }
{
    [
        f.class as u64,
        f.rm as u64,
        0,
        f.pc as u64,
        f.rn as u64,
        f.first as u64,
        multiple,
        0,
    ]
}

fn quadword_numbers(f: QuadwordFields) -> [u64; 8]
    ensures { result ≡ f.class ∷ f.rm ∷ 0 ∷ f.pg ∷ f.zn ∷ f.zt ∷ 0 ∷ 0 ∷ [] }
{
    [
        f.class as u64,
        f.rm as u64,
        0,
        f.pg as u64,
        f.zn as u64,
        f.zt as u64,
        0,
        0,
    ]
}

// A store as eight numbers.
pub fn numbers_of(store: Store) -> [u64; 8]
    ensures { result ≡ store_numbers store }
{
    match store {
        Store::Scatter(f) => {
            let extension = f.extension;
            scatter_numbers(f, number_of(extension))
        }
        Store::Strided(f) => strided_numbers(f, (f.multiple as i64).cast_unsigned()),
        Store::Quadword(f) => quadword_numbers(f),
    }
}

fn extension_of(n: u64) -> Option<Extension>
    ensures { result ≡ extension_given n }
{
    match n {
        0 => None,
        1 => Some(Extension::Uxtw),
        _ => Some(Extension::Sxtw),
    }
}

// Whether 64 bits, read as signed, are -128..127.
fn is_signed_byte(bits: u64) -> bool
    ensures { result ≡ signed_byte bits }
{
    bits.wrapping_add(128) < 256
}

// Whether the entries that a store keeps in a byte fit one.
fn is_narrow(fields: &[u64; 8]) -> bool
    ensures { result ≡ narrow fields.now }
{
    (fields[0] < 256)
        & (fields[1] < 256)
        & (fields[3] < 256)
        & (fields[4] < 256)
        & (fields[5] < 256)
        & is_signed_byte(fields[6])
}

// Whether the entries give no store of a class with this feature.
fn is_misgiven(feature: Feature, fields: &[u64; 8]) -> bool
    ensures { result ≡ misgiven feature fields.now }
{
    if fields[7] != 0 {
        return true;
    }
    if 2 < fields[2] {
        return true;
    }
    match feature {
        Feature::SVE => fields[6] != 0,
        Feature::SME2 => fields[2] != 0,
        Feature::SVE2p1 => (fields[2] != 0) | (fields[6] != 0),
    }
}

fn scatter_given(fields: &[u64; 8]) -> ScatterFields
    requires { Narrow fields.now }
    ensures { Store.Scatter result ≡ store_given SVE fields.now }
{
    ScatterFields {
        class: fields[0] as u8,
        zm: fields[1] as u8,
        extension: extension_of(fields[2]),
        pg: fields[3] as u8,
        rn: fields[4] as u8,
        zt: fields[5] as u8,
    }
}

fn strided_given(fields: &[u64; 8]) -> StridedFields
    requires { Narrow fields.now }
    ensures { Store.Strided result ≡ store_given SME2 fields.now }
{
    StridedFields {
        class: fields[0] as u8,
        rm: fields[1] as u8,
        multiple: fields[6].cast_signed() as i8,
        pc: fields[3] as u8,
        rn: fields[4] as u8,
        first: fields[5] as u8,
    }
}

fn quadword_given(fields: &[u64; 8]) -> QuadwordFields
    requires { Narrow fields.now }
    ensures { Store.Quadword result ≡ store_given SVE2p1 fields.now }
{
    QuadwordFields {
        class: fields[0] as u8,
        rm: fields[1] as u8,
        pg: fields[3] as u8,
        zn: fields[4] as u8,
        zt: fields[5] as u8,
    }
}

// The word that eight numbers give; None, verdict 11, where they give none. Each is compared before it is narrowed.
pub fn encode_given(fields: &[u64; 8]) -> Option<u32>
    ensures { result ≡ encode_given fields.now }
{
    if !is_narrow(fields) {
        return None;
    }
    let feature = encoding::feature_of(fields[0] as u8);
    if is_misgiven(feature, fields) {
        return None;
    }
    match feature {
        Feature::SVE => encoder::encode(Store::Scatter(scatter_given(fields))),
        Feature::SME2 => encoder::encode(Store::Strided(strided_given(fields))),
        Feature::SVE2p1 => encoder::encode(Store::Quadword(quadword_given(fields))),
    }
}
