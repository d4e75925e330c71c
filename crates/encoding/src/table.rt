// The code's tables of the classes, and how a class is found in them.
ghost use Rattle.std.specs.Prelude.{◌≡◌, ◌==◌, position, bit_and, slice_index};
ghost use Rattle.encoding.specs.Decoding.{index_of};
ghost use Rattle.encoding.specs.Encoding.{row_of, row_numbered};
ghost use Rattle.encoding.specs.Layouts.{listed};

use super::{Feature, Layout};

// What the code keeps of a class.
#[derive(Clone, Copy)]
pub struct Row {
    pub number: u8,
    pub base: u32,
    pub feature: Feature,
    pub layout: Layout,
    // esize/8 and msize/8, and the latter as a power of 2.
    pub step: u32,
    pub size: u32,
    pub exponent: u32,
    pub scale: u32,
}

// The fixed bits of each class, and what they are: a mask and the base word.
pub(crate) static FIXED: [[u32; 2]; 36] = [
    [0xFFE0A000, 0xE5A08000],
    [0xFFE0A000, 0xE5808000],
    [0xFFE0E000, 0xE5A0A000],
    [0xFFE0E000, 0xE580A000],
    [0xFFE0A000, 0xE4008000],
    [0xFFE0A000, 0xE4408000],
    [0xFFE0E000, 0xE400A000],
    [0xFFE0E008, 0xA1206000],
    [0xFFE0E00C, 0xA120E000],
    [0xFFF0E008, 0xA1606000],
    [0xFFF0E00C, 0xA160E000],
    [0xFFE0E000, 0xE4202000],
    [0xFFE0A000, 0xE4A08000],
    [0xFFE0A000, 0xE4808000],
    [0xFFE0E000, 0xE4A0A000],
    [0xFFE0E000, 0xE480A000],
    [0xFFE0A000, 0xE4E08000],
    [0xFFE0A000, 0xE4C08000],
    [0xFFE0A000, 0xE5208000],
    [0xFFE0A000, 0xE5008000],
    [0xFFE0E000, 0xE520A000],
    [0xFFE0E000, 0xE500A000],
    [0xFFE0A000, 0xE5608000],
    [0xFFE0A000, 0xE5408000],
    [0xFFE0E008, 0xA1200000],
    [0xFFE0E00C, 0xA1208000],
    [0xFFF0E008, 0xA1600000],
    [0xFFF0E00C, 0xA1608000],
    [0xFFE0E008, 0xA1202000],
    [0xFFE0E00C, 0xA120A000],
    [0xFFF0E008, 0xA1602000],
    [0xFFF0E00C, 0xA160A000],
    [0xFFE0E008, 0xA1204000],
    [0xFFE0E00C, 0xA120C000],
    [0xFFF0E008, 0xA1604000],
    [0xFFF0E00C, 0xA160C000],
];

// A row for each line: number, base, feature; nreg and the bits of xs, Rm, imm4 and Zt; step, size, exponent, scale.
macro_rules! rows {
    ($(($number:literal, $base:literal, $feature:ident,
        $nreg:literal, $xs:literal, $rm:literal, $imm4:literal, $zt:literal,
        $step:literal, $size:literal, $exponent:literal, $scale:literal)),*) => {
        [$(Row {
            number: $number,
            base: $base,
            feature: Feature::$feature,
            layout: Layout { nreg: $nreg, xs: $xs, rm: $rm, imm4: $imm4, zt: $zt },
            step: $step,
            size: $size,
            exponent: $exponent,
            scale: $scale,
        }),*]
    };
}

pub(crate) static ROWS: [Row; 36] = rows! {
    (1, 0xE5A08000, SVE, 1, 1, 0, 0, 0, 8, 8, 3, 3),
    (2, 0xE5808000, SVE, 1, 1, 0, 0, 0, 8, 8, 3, 0),
    (3, 0xE5A0A000, SVE, 1, 0, 0, 0, 0, 8, 8, 3, 3),
    (4, 0xE580A000, SVE, 1, 0, 0, 0, 0, 8, 8, 3, 0),
    (5, 0xE4008000, SVE, 1, 1, 0, 0, 0, 8, 1, 0, 0),
    (6, 0xE4408000, SVE, 1, 1, 0, 0, 0, 4, 1, 0, 0),
    (7, 0xE400A000, SVE, 1, 0, 0, 0, 0, 8, 1, 0, 0),
    (8, 0xA1206000, SME2, 2, 0, 5, 0, 3, 8, 8, 3, 3),
    (9, 0xA120E000, SME2, 4, 0, 5, 0, 2, 8, 8, 3, 3),
    (10, 0xA1606000, SME2, 2, 0, 0, 4, 3, 8, 8, 3, 0),
    (11, 0xA160E000, SME2, 4, 0, 0, 4, 2, 8, 8, 3, 0),
    (12, 0xE4202000, SVE2p1, 1, 0, 5, 0, 0, 16, 16, 4, 0),
    (13, 0xE4A08000, SVE, 1, 1, 0, 0, 0, 8, 2, 1, 1),
    (14, 0xE4808000, SVE, 1, 1, 0, 0, 0, 8, 2, 1, 0),
    (15, 0xE4A0A000, SVE, 1, 0, 0, 0, 0, 8, 2, 1, 1),
    (16, 0xE480A000, SVE, 1, 0, 0, 0, 0, 8, 2, 1, 0),
    (17, 0xE4E08000, SVE, 1, 1, 0, 0, 0, 4, 2, 1, 1),
    (18, 0xE4C08000, SVE, 1, 1, 0, 0, 0, 4, 2, 1, 0),
    (19, 0xE5208000, SVE, 1, 1, 0, 0, 0, 8, 4, 2, 2),
    (20, 0xE5008000, SVE, 1, 1, 0, 0, 0, 8, 4, 2, 0),
    (21, 0xE520A000, SVE, 1, 0, 0, 0, 0, 8, 4, 2, 2),
    (22, 0xE500A000, SVE, 1, 0, 0, 0, 0, 8, 4, 2, 0),
    (23, 0xE5608000, SVE, 1, 1, 0, 0, 0, 4, 4, 2, 2),
    (24, 0xE5408000, SVE, 1, 1, 0, 0, 0, 4, 4, 2, 0),
    (25, 0xA1200000, SME2, 2, 0, 5, 0, 3, 1, 1, 0, 0),
    (26, 0xA1208000, SME2, 4, 0, 5, 0, 2, 1, 1, 0, 0),
    (27, 0xA1600000, SME2, 2, 0, 0, 4, 3, 1, 1, 0, 0),
    (28, 0xA1608000, SME2, 4, 0, 0, 4, 2, 1, 1, 0, 0),
    (29, 0xA1202000, SME2, 2, 0, 5, 0, 3, 2, 2, 1, 1),
    (30, 0xA120A000, SME2, 4, 0, 5, 0, 2, 2, 2, 1, 1),
    (31, 0xA1602000, SME2, 2, 0, 0, 4, 3, 2, 2, 1, 0),
    (32, 0xA160A000, SME2, 4, 0, 0, 4, 2, 2, 2, 1, 0),
    (33, 0xA1204000, SME2, 2, 0, 5, 0, 3, 4, 4, 2, 2),
    (34, 0xA120C000, SME2, 4, 0, 5, 0, 2, 4, 4, 2, 2),
    (35, 0xA1604000, SME2, 2, 0, 0, 4, 3, 4, 4, 2, 0),
    (36, 0xA160C000, SME2, 4, 0, 0, 4, 2, 4, 4, 2, 0)
};

// The first of the rows whose fixed bits the word has.
fn first(rows: &[[u32; 2]], word: u32) -> Option<usize>
    ensures { result ≡ position (λ r. bit_and word (slice_index r 0) == slice_index r 1) rows.now }
{
    rows.iter().position(|row| word & row[0] == row[1])
}

// The row of the class that the word belongs to.
pub(crate) fn row_for(word: u32) -> Option<Row>
    ensures { result ≡ listed (index_of word) }
{
    let k = first(&FIXED, word)?;
    Some(ROWS[k])
}

// The row of the class with this number.
pub(crate) fn row_numbered(class: u8) -> Option<Row>
    ensures { result ≡ listed (row_numbered class) }
{
    match class {
        1..=36 => Some(ROWS[class as usize - 1]),
        _ => None,
    }
}

// The row of the class with this number, if it needs this feature.
pub fn row_of(class: u8, feature: Feature) -> Option<Row>
    ensures { result ≡ listed (row_of class feature) }
{
    let row = row_numbered(class)?;
    (row.feature == feature).then_some(row)
}
