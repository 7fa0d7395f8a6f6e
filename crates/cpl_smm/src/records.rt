//! One record of a file of weights, and the factor that it says.

ghost use Rattle.std.specs.Prelude.{◌≡◌, option_map};
ghost use Rattle.csv.specs.Records.{fields_of};
ghost use Rattle.cpl_smm.specs.Kept.{kept_answer};
ghost use Rattle.cpl_smm.specs.Records.{fields_in, is_cell, record_factor, three_of};

use crate::entries::KeptFactor;
use crate::fault::WeightFault;
use crate::numbers::{number_word, weight_in_range};
use csv::ByteRecord;

/// A file has so many records at most.
pub(crate) const MOST_RECORDS: u64 = 4_194_304;

/// Two numbers, and a weight if it is in range.
#[derive(Clone, Copy)]
pub(crate) struct Fields {
    /// The source cell.
    pub src: u64,
    /// The destination cell.
    pub dst: u64,
    /// The weight, in billionths.
    pub weight: Option<i64>,
}

/// The factor that the record of this number says, or why it says none.
#[tactic(auto, unfolding(crate::specs::Records::record_factor))]
pub(crate) fn kept_factor(
    src_cells: u32,
    dst_cells: u32,
    n: u64,
    csv_record: &ByteRecord,
) -> Result<KeptFactor, WeightFault>
    ensures { result ≡ kept_answer n (record_factor src_cells dst_cells n (fields_of csv_record.now)) }
{
    if n > MOST_RECORDS {
        return Err(WeightFault::TooManyWeights { n });
    }
    let Some(fields) = read_fields(csv_record) else {
        return Err(WeightFault::BadRecord { n });
    };
    if !is_cell(src_cells, fields.src) || !is_cell(dst_cells, fields.dst) {
        return Err(WeightFault::IndexRange { n });
    }
    match fields.weight {
        Some(weight) => Ok(KeptFactor {
            dst: fields.dst as u32,
            src: fields.src as u32,
            weight,
            number: n,
        }),
        None => Err(WeightFault::WeightRange { n }),
    }
}

/// Whether there is a cell of this number.
fn is_cell(cells: u32, s: u64) -> bool
    ensures { result ≡ is_cell cells s }
{
    1 <= s && s <= u64::from(cells)
}

/// What a record of just three fields of their forms says.
fn read_fields(csv_record: &ByteRecord) -> Option<Fields>
    ensures { result ≡ fields_in (fields_of csv_record.now) }
{
    let (src, dst, weight) = three(csv_record)?;
    let src = number_word(src)?;
    let dst = number_word(dst)?;
    let weight = weight_in_range(weight)?;
    Some(Fields { src, dst, weight })
}

/// The fields of a record that has just three.
fn three(csv_record: &ByteRecord) -> Option<(&[u8], &[u8], &[u8])>
    ensures { option_map (λ f. (f.0.now, f.1.now, f.2.now)) result ≡ three_of (fields_of csv_record.now) }
{
    if csv_record.len() != 3 {
        return None;
    }
    Some((csv_record.get(0)?, csv_record.get(1)?, csv_record.get(2)?))
}
