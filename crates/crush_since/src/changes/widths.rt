//! The widths of the columns.

ghost use Rattle.std.specs.Prelude.{◌≡◌, IfOk, length, max, map as each};
ghost use Rattle.crush_since.specs.ChangeText.{weight_or_dash as dashed, widths_of};
ghost use Rattle.crush_since.specs.ClassChangesSeen.{shown_change};

use crate::changes::of_class::{ClassWeights, shown_change};
use crate::changes::rows::TreeRow;
use crate::changes::weights::{class_bytes, weighed, weighs, weight_or_dash};
use crush_compare::Comparison;
use crush_print::{wider, wider_id};
use crush_units::Weight;
use std::alloc::{AllocError, Allocator, Global};

#[derive(Clone, Copy, Debug)]
pub(crate) struct ChangeWidths {
    pub id: usize,
    pub class: usize,
    /// The width of the column WAS.
    pub was: usize,
    /// The width of the column WEIGHT.
    pub weight: usize,
}

pub(super) fn widths_of<A: Allocator, B: Allocator>(
    alloc: Global,
    maps: &Comparison<'_, A, B>,
    weights: &Option<ClassWeights>,
    rows: &[TreeRow],
) -> Result<ChangeWidths, AllocError>
    ensures { IfOk result (λ widths. widths ≡ widths_of (each (shown_change maps.now weights.now) rows.now)) }
{
    let mut id = 2;
    let mut class = 5;
    let mut was = 3;
    let mut weight = 6;
    for row in rows {
        let change = shown_change(maps, weights, row);
        id = wider_id(alloc, id, change.id)?;
        class = wider(class, class_bytes(&change));
        was = wider_weight(alloc, was, weighed(&change))?;
        weight = wider_weight(alloc, weight, weighs(&change))?;
    }
    Ok(ChangeWidths {
        id,
        class,
        was,
        weight,
    })
}

fn wider_weight(alloc: Global, width: usize, weight: Option<Weight>) -> Result<usize, AllocError>
    ensures { IfOk result (λ wider. wider ≡ max width (length (dashed weight))) }
{
    let word = weight_or_dash(alloc, weight)?;
    Ok(wider(width, word.as_slice()))
}
