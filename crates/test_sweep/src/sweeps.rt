//! Values of formulas over runs of cells, which another program worked out.

ghost use Rattle.std.specs.Prelude.{◌<◌, All, IfOk, IsTrue, length};
ghost use Rattle.cpl_base.specs.Numbers.{IsValue};
ghost use Rattle.cpl_formula.specs.Tree.{is_over};
ghost use Rattle.cpl_sweep.specs.Places.{IsPlace};

use cpl_base::{GREATEST, Many, Text};
use cpl_field::Field;
use cpl_formula::{Formula, FormulaFault, Parsed, Read, ReadName, parse};
use cpl_sweep::{Place, STRIP, scratch_rows, sweep, sweep_examples};
use sqlite_items::Boxed;
use std::alloc::Global;
use std::process::Abort;
use std::test::Fail;

/// The greatest value, in millionths.
const MOST: i64 = GREATEST as i64;

/// Each field has so many places.
const PLACES: u16 = 304;

/// The cell 0 stands at this place of each field.
const FIRST: i32 = 2;

/// Numbers at the ends of what a value may be, and around 0.
const ENDS: [i64; 8] = [
    MOST,
    -MOST,
    0,
    1,
    -1,
    1_000_000,
    999_999_999_999_999,
    -123_456_789,
];

/// The cells at which values stand in the table.
const CELLS: [usize; 6] = [0, 1, 127, 128, 256, 299];

/// So many cells are swept: none, one, and as many as around one strip, two and more.
const LENGTHS: [usize; 9] = [0, 1, 127, 128, 129, 255, 256, 257, 300];

/// A text over the fields `x`, `y` and `z`, how many strips its formula is worked out in beside the one for the whole,
/// its values at six cells, and the sum over 300 cells of each value times the cell's number counted from 1, which
/// begins anew at the ends of 64 bits.
type Case = (&'static [u8], usize, [i64; 6], i64);

const CASES: [Case; 50] = [
    (
        b"x",
        0,
        [
            -5_259_258_828,
            -4_802_468_742,
            3_320_987_382,
            3_777_777_468,
            456_790_086,
            -4_617_283_572,
        ],
        4_262_913_230_688,
    ),
    (
        b"5",
        0,
        [
            5_000_000, 5_000_000, 5_000_000, 5_000_000, 5_000_000, 5_000_000,
        ],
        225_750_000_000,
    ),
    (
        b"dt",
        0,
        [
            7_000_000, 7_000_000, 7_000_000, 7_000_000, 7_000_000, 7_000_000,
        ],
        316_050_000_000,
    ),
    (
        b"-x",
        0,
        [
            5_259_258_828,
            4_802_468_742,
            -3_320_987_382,
            -3_777_777_468,
            -456_790_086,
            4_617_283_572,
        ],
        -4_262_913_230_688,
    ),
    (
        b"abs(x)",
        0,
        [
            5_259_258_828,
            4_802_468_742,
            3_320_987_382,
            3_777_777_468,
            456_790_086,
            4_617_283_572,
        ],
        141_973_099_469_316,
    ),
    (
        b"abs(z)",
        0,
        [0, 1, 1_000_000_000_000_000, 0, 0, 1_000_000],
        -1_722_743_382_748_366_741,
    ),
    (
        b"x + y",
        0,
        [
            -5_651_259_220,
            -5_141_469_081,
            3_677_987_739,
            4_187_777_878,
            671_790_301,
            -5_114_284_069,
        ],
        4_609_803_577_578,
    ),
    (
        b"z + z[1,0]",
        0,
        [1, 0, -1_000_000_000_000_000, 1, 1, 1_000_000_000_000_000],
        -7_231_745_433_774_013_912,
    ),
    (
        b"x - y",
        0,
        [
            -4_867_258_436,
            -4_463_468_403,
            2_963_987_025,
            3_367_777_058,
            241_789_871,
            -4_120_283_075,
        ],
        3_916_022_883_798,
    ),
    (
        b"z - z[1,0]",
        0,
        [-1, 2, -1_000_000_000_000_000, -1, -1, -999_999_998_999_999],
        -5_849_999_999_961_994_224,
    ),
    (
        b"x * y",
        0,
        [
            2_061_631_522_205,
            1_628_038_531_575,
            1_185_593_680_966,
            1_548_890_310_769,
            98_209_966_700,
            2_294_792_230_074,
        ],
        -656_540_133_565_727,
    ),
    (
        b"z * z",
        0,
        [0, 0, 1_000_000_000_000_000, 0, 0, 1_000_000],
        -1_722_659_477_171_489_116,
    ),
    (
        b"x / y",
        0,
        [
            13_416_463, 14_166_560, 9_302_476, 9_214_082, 2_124_603, 9_290_300,
        ],
        -236_448_992_641,
    ),
    (
        b"z / x",
        0,
        [0, 0, -301_115_266_327, 0, 0, -217],
        11_333_450_440_208_942,
    ),
    (
        b"min(x, y)",
        0,
        [
            -5_259_258_828,
            -4_802_468_742,
            357_000_357,
            410_000_410,
            215_000_215,
            -4_617_283_572,
        ],
        -69_063_853_129_396,
    ),
    (
        b"max(x, y)",
        0,
        [
            -392_000_392,
            -339_000_339,
            3_320_987_382,
            3_777_777_468,
            456_790_086,
            -497_000_497,
        ],
        73_673_656_706_974,
    ),
    (
        b"sel(x, y, z)",
        2,
        [0, 1, 357_000_357, 410_000_410, 215_000_215, 1_000_000],
        2_202_999_675_077_246_030,
    ),
    (
        b"sel(x, 1, y[-2,0])",
        2,
        [
            -498_000_498,
            -445_000_445,
            1_000_000,
            1_000_000,
            1_000_000,
            394_000_394,
        ],
        788_165_764_911,
    ),
    (
        b"x + 2",
        0,
        [
            -5_257_258_828,
            -4_800_468_742,
            3_322_987_382,
            3_779_777_468,
            458_790_086,
            -4_615_283_572,
        ],
        4_353_213_230_688,
    ),
    (
        b"2 - x",
        0,
        [
            5_261_258_828,
            4_804_468_742,
            -3_318_987_382,
            -3_775_777_468,
            -454_790_086,
            4_619_283_572,
        ],
        -4_172_613_230_688,
    ),
    (
        b"z + 1000000000",
        0,
        [
            1_000_000_000_000_000,
            1_000_000_000_000_000,
            0,
            1_000_000_000_000_000,
            1_000_000_000_000_000,
            1_000_000_000_000_000,
        ],
        2_632_511_167_395_712_080,
    ),
    (
        b"x * 3",
        0,
        [
            -15_777_776_484,
            -14_407_406_226,
            9_962_962_146,
            11_333_332_404,
            1_370_370_258,
            -13_851_850_716,
        ],
        12_788_739_692_064,
    ),
    (
        b"3 * x",
        0,
        [
            -15_777_776_484,
            -14_407_406_226,
            9_962_962_146,
            11_333_332_404,
            1_370_370_258,
            -13_851_850_716,
        ],
        12_788_739_692_064,
    ),
    (
        b"x * 9000",
        0,
        [
            -47_333_329_452_000,
            -43_222_218_678_000,
            29_888_886_438_000,
            33_999_997_212_000,
            4_111_110_774_000,
            -41_555_552_148_000,
        ],
        38_366_219_076_192_000,
    ),
    (
        b"x * 9001",
        0,
        [
            -47_338_588_710_828,
            -43_227_021_146_742,
            29_892_207_425_382,
            34_003_774_989_468,
            4_111_567_564_086,
            -41_560_169_431_572,
        ],
        38_370_481_989_422_688,
    ),
    (
        b"-9000 * x",
        0,
        [
            47_333_329_452_000,
            43_222_218_678_000,
            -29_888_886_438_000,
            -33_999_997_212_000,
            -4_111_110_774_000,
            41_555_552_148_000,
        ],
        -38_366_219_076_192_000,
    ),
    (
        b"9001 * z",
        0,
        [0, 9_001, -1_000_000_000_000_000, 0, 0, 9_001_000_000],
        5_469_884_637_979_929_012,
    ),
    (
        b"x * 0.05",
        0,
        [
            -262_962_941,
            -240_123_437,
            166_049_369,
            188_888_873,
            22_839_504,
            -230_864_179,
        ],
        213_145_663_877,
    ),
    (
        b"0.05 * x",
        0,
        [
            -262_962_941,
            -240_123_437,
            166_049_369,
            188_888_873,
            22_839_504,
            -230_864_179,
        ],
        213_145_663_877,
    ),
    (
        b"x / 100",
        0,
        [
            -52_592_588,
            -48_024_687,
            33_209_874,
            37_777_775,
            4_567_901,
            -46_172_836,
        ],
        42_629_133_000,
    ),
    (b"x / 0", 0, [0, 0, 0, 0, 0, 0], 0),
    (
        b"x / -3",
        1,
        [
            1_753_086_276,
            1_600_822_914,
            -1_106_995_794,
            -1_259_259_156,
            -152_263_362,
            1_539_094_524,
        ],
        -1_420_971_076_896,
    ),
    (
        b"x / 0.0005",
        0,
        [
            -10_518_517_656_000,
            -9_604_937_484_000,
            6_641_974_764_000,
            7_555_554_936_000,
            913_580_172_000,
            -9_234_567_144_000,
        ],
        8_525_826_461_376_000,
    ),
    (
        b"x / 0.001",
        0,
        [
            -5_259_258_828_000,
            -4_802_468_742_000,
            3_320_987_382_000,
            3_777_777_468_000,
            456_790_086_000,
            -4_617_283_572_000,
        ],
        4_262_913_230_688_000,
    ),
    (
        b"z / 0.000001",
        0,
        [
            0,
            1_000_000,
            -1_000_000_000_000_000,
            0,
            0,
            1_000_000_000_000,
        ],
        4_796_590_821_012_000_000,
    ),
    (
        b"100 / x",
        0,
        [-19_014, -20_823, 30_112, 26_471, 218_919, -21_658],
        702_718_887,
    ),
    (
        b"x * dt",
        0,
        [
            -36_814_811_796,
            -33_617_281_194,
            23_246_911_674,
            26_444_442_276,
            3_197_530_602,
            -32_320_985_004,
        ],
        29_840_392_614_816,
    ),
    (
        b"dt * x",
        0,
        [
            -36_814_811_796,
            -33_617_281_194,
            23_246_911_674,
            26_444_442_276,
            3_197_530_602,
            -32_320_985_004,
        ],
        29_840_392_614_816,
    ),
    (
        b"x / dt",
        0,
        [
            -751_322_690,
            -686_066_963,
            474_426_769,
            539_682_495,
            65_255_727,
            -659_611_939,
        ],
        608_987_604_384,
    ),
    (
        b"dt - x",
        0,
        [
            5_266_258_828,
            4_809_468_742,
            -3_313_987_382,
            -3_770_777_468,
            -449_790_086,
            4_624_283_572,
        ],
        -3_946_863_230_688,
    ),
    (
        b"min(x, 0)",
        0,
        [-5_259_258_828, -4_802_468_742, 0, 0, 0, -4_617_283_572],
        -68_855_093_119_314,
    ),
    (
        b"max(2, x)",
        0,
        [
            2_000_000,
            2_000_000,
            3_320_987_382,
            3_777_777_468,
            456_790_086,
            2_000_000,
        ],
        73_161_798_350_002,
    ),
    (
        b"2 * 3",
        0,
        [
            6_000_000, 6_000_000, 6_000_000, 6_000_000, 6_000_000, 6_000_000,
        ],
        270_900_000_000,
    ),
    (
        b"x * (y * 2)",
        1,
        [
            4_123_263_044_411,
            3_256_077_063_150,
            2_371_187_361_933,
            3_097_780_621_538,
            196_419_933_400,
            4_589_584_460_148,
        ],
        -1_313_080_267_134_372,
    ),
    (
        b"(x + y) * (y - x)",
        1,
        [
            -27_506_139_112_568,
            -22_948_784_788_045,
            -10_901_507_936_505,
            -14_103_502_261_528,
            -162_432_090_218,
            -21_072_298_090_243,
        ],
        -588_441_996_455_607_240,
    ),
    (
        b"x - (y - (z - (x - (y - z))))",
        4,
        [0, 0, -357_000_357, 0, 0, 0],
        10_931_064_718_004,
    ),
    (
        b"x - (y - 1)",
        1,
        [
            -4_866_258_436,
            -4_462_468_403,
            2_964_987_025,
            3_368_777_058,
            242_789_871,
            -4_119_283_075,
        ],
        3_961_172_883_798,
    ),
    (
        b"sel(x - y, x * (y + z), sel(z, x, 1))",
        4,
        [
            1_000_000,
            -4_802_468_742,
            -1_000_000_000_000_000,
            1_548_890_310_769,
            98_209_966_700,
            -4_617_283_572,
        ],
        3_220_105_579_342_401_247,
    ),
    (
        b"sel(sel(x, y, z), min(x, y - x), max(x - (y - z), 3))",
        3,
        [
            3_000_000,
            -4_802_468_742,
            -2_963_987_025,
            -3_367_777_058,
            -241_789_871,
            -4_617_283_572,
        ],
        3_255_956_256_499_339_678,
    ),
    (
        b"x + 0.05 * (x[1,0] + x[-1,0] + x[2,0] + x[-2,0] - 4 * x) - y / 100",
        3,
        [
            -5_255_338_824,
            -4_799_078_739,
            3_317_417_378,
            3_773_677_464,
            454_640_084,
            -4_612_313_567,
        ],
        4_293_428_892_240,
    ),
];

/// The values of the fields at a place.
fn values_at(place: u16) -> [i64; 3] {
    let at = i64::from(place);
    [
        (at * 37 % 1001 - 500) * 12_345_678,
        (at * 53 % 997 - 498) * 1_000_001,
        ENDS[place as usize % 8],
    ]
}

/// Three fields.
fn fields(alloc: Global) -> Result<Vec<Field>, Fail> {
    let mut fields = Vec::new(alloc);
    for which in 0..3usize {
        let mut field = Field::new(alloc, PLACES as usize)?;
        let values = field.values_mut();
        for place in 0..PLACES {
            if (place as usize) < values.len() {
                values[place as usize] = values_at(place)[which];
            }
        }
        fields.push(field)?;
    }
    Ok(fields)
}

/// Where an input comes from.
fn place_of(read: &Read) -> Place {
    match read.name {
        ReadName::Field(field) => Place::From {
            field,
            first: u32::try_from(FIRST + i32::from(read.dx)).unwrap_or(0),
        },
        ReadName::Dt => Place::Same(7_000_000),
        _ => Place::Same(0),
    }
}

/// Whether all numbers are values.
fn are_values(numbers: &[i64]) -> bool
    ensures { IsTrue result → All IsValue numbers.now }
{
    numbers.iter().all(|number| (-MOST..=MOST).contains(number))
}

/// Whether all fields have values.
fn are_fields(fields: &[Field]) -> bool
    ensures { IsTrue result → All (All IsValue) fields.now }
{
    fields.iter().all(|field| are_values(field.values()))
}

/// Whether so many cells of an input lie within its field.
fn is_place(place: &Place, fields: &[Field], cells: usize) -> bool
    ensures { IsTrue result → IsPlace fields.now cells place.now }
{
    match place {
        Place::Same(number) => (-MOST..=MOST).contains(number),
        Place::From { field, first } => match fields.get(*field as usize) {
            Some(field) => {
                let length = field.values().len();
                cells <= length && *first as usize <= length - cells
            }
            None => false,
        },
    }
}

/// Whether so many cells of each input lie within its field.
fn are_places(places: &[Place], fields: &[Field], cells: usize) -> bool
    ensures { IsTrue result → All (IsPlace fields.now cells) places.now }
{
    places.iter().all(|place| is_place(place, fields, cells))
}

/// A formula, and where its inputs come from.
#[derive(Drop)]
struct Rule {
    tree: Boxed<Formula>,
    places: Vec<Place>,
}

/// The names of the fields.
fn names(alloc: Global) -> Result<Many<Text>, Fail> {
    let mut names = Vec::new(alloc);
    for name in [b"x", b"y", b"z"] {
        names.push(Text::of(alloc, name)?)?;
    }
    Ok(Many::of(names))
}

/// The formula of a text, and what it reads.
fn read(
    alloc: Global,
    text: &[u8],
    names: &[Text],
) -> Result<(Boxed<Formula>, Many<Read>), FormulaFault>
    requires text { length text.now < 1000 }
    requires names { length names.now < 10 }
    ensures { IfOk result (λ read. IsTrue (is_over (length read.1) read.0)) }
{
    let Parsed { tree, reads } = parse(alloc, text, names, &[])?;
    match Boxed::new(alloc, tree) {
        Ok(tree) => Ok((tree, reads)),
        Err(_) => Err(FormulaFault::Memory),
    }
}

/// Where all inputs come from.
fn places_of(alloc: Global, reads: &[Read]) -> Result<Vec<Place>, Fail> {
    let mut places = Vec::new(alloc);
    for read in reads {
        places.push(place_of(read))?;
    }
    Ok(places)
}

/// The rule of a text.
fn rule_of(alloc: Global, text: &[u8]) -> Result<Rule, Fail>
    ensures { IfOk result (λ rule. IsTrue (is_over (length rule.places.items) rule.tree)) }
{
    let names = names(alloc)?;
    if text.len() >= 1_000 || names.items().len() >= 10 {
        return Err(Fail::from("a long text"));
    }
    let (tree, reads) = read(alloc, text, names.items())?;
    let places = places_of(alloc, reads.items())?;
    if places.len() != reads.items().len() {
        return Err(Fail::from("other inputs"));
    }
    Ok(Rule { tree, places })
}

/// The values of a rule over so many cells.
fn swept(
    alloc: Global,
    tree: &Formula,
    places: &[Place],
    fields: &[Field],
    cells: usize,
) -> Result<Vec<i64>, Fail>
    requires { IsTrue (is_over (length places.now) tree.now) }
{
    let rows = scratch_rows(tree);
    let mut scratch = Vec::from_elem(alloc, i64::MAX, rows.saturating_mul(STRIP))?;
    let mut these = Vec::from_elem(alloc, i64::MIN, cells)?;
    if !are_fields(fields) || !are_places(places, fields, cells) {
        return Err(Fail::from("inputs that don't reach"));
    }
    sweep(
        tree,
        places,
        fields,
        scratch.as_mut_slice(),
        these.as_mut_slice(),
    );
    Ok(these)
}

/// The sum of each value times the number of its cell, counted from 1.
fn weighted_sum(values: &[i64]) -> i64 {
    let mut sum = 0i64;
    let mut weight = 1i64;
    for value in values {
        sum = sum.wrapping_add(value.wrapping_mul(weight));
        weight = weight.wrapping_add(1);
    }
    sum
}

/// Compares the values of a rule with those of the table.
fn compare(rt: &impl Abort, tree: &Formula, all: &[i64], place: usize, case: &Case) {
    let (_, strips, wanted, sum) = case;
    assert_eq!(rt; scratch_rows(tree), *strips, "strips of case {place}");
    for (cell, value) in CELLS.iter().zip(wanted.iter()) {
        assert_eq!(rt; all.get(*cell), Some(value), "case {place} at {cell}");
    }
    assert_eq!(rt; weighted_sum(all), *sum, "sum of case {place}");
}

/// Compares the values of a text with those of the table, and those over fewer cells with these.
fn compare_case(
    rt: &(impl Abort + AllocGlobal),
    fields: &[Field],
    place: usize,
    case: &Case,
) -> Result<(), Fail> {
    let alloc = rt.alloc();
    let Rule { tree, places } = rule_of(alloc, case.0)?;
    let all = swept(alloc, tree.get(), places.as_slice(), fields, 300)?;
    compare(rt, tree.get(), all.as_slice(), place, case);
    for cells in LENGTHS.iter() {
        let some = swept(alloc, tree.get(), places.as_slice(), fields, *cells)?;
        assert_eq!(rt;
            Some(some.as_slice()),
            all.as_slice().get(..*cells),
            "case {place} over {cells}"
        );
    }
    Ok(())
}

#[test]
fn values(rt: HostRuntime) -> Result<(), Fail> {
    sweep_examples();
    let fields = fields(rt.alloc())?;
    for (place, case) in CASES.iter().enumerate() {
        compare_case(&rt, fields.as_slice(), place, case)?;
    }
    Ok(())
}
