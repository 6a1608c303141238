//! The lists that are saved of a comparison.
ghost use Rattle.std.specs.Prelude.{◌≡◌, ◌++◌, ◌∷◌, if◌then◌else◌};
ghost use Rattle.compare_report.specs.Prelude.{[], not, map, All, OnOk, IfOk, true, IsStrictlySortedBy, path_cmp, is_shaped, paths, only_dest, side, IsSide};
ghost use Rattle.compare_report.specs.Outputs.{is_given, given_paths, IsSelected, AreOutputs};

use crate::picking::joined;
use flat_list::FlatList;
use path_text::{OutOfMemory, Path};
use run_entries::{Output, Sides};
use std::alloc::Global;
use tool_words::Want;
use tree_cmp::{Compared, Exist, Expr, Row};

/// The lists to save, in order.
pub(crate) fn outputs_of(
    alloc: Global,
    sides: &Sides,
    compared: &Compared,
    wants: Vec<Want>,
) -> Result<Vec<Output>, OutOfMemory>
    requires left { IsSide (side sides.now.left_top sides.now.left) }
    requires right { IsSide (side sides.now.right_top sides.now.right) }
    requires rows { IsStrictlySortedBy path_cmp (map (λ row. row.path) compared.now.rows) }
    requires left_shaped { All (λ e. is_shaped e ≡ true) sides.now.left }
    requires right_shaped { All (λ e. is_shaped e ≡ true) sides.now.right }
    ensures are { IfOk result (λ outputs. AreOutputs wants.items compared.now.rows
        sides.now.left_top sides.now.right_top sides.now.left sides.now.right outputs.items) }
    ensures ascend { IfOk result (λ outputs. All (λ o. IsStrictlySortedBy path_cmp (paths o.list)) outputs.items) }
    ensures shaped { IfOk result (λ outputs. All (λ o. All (λ e. is_shaped e ≡ true) o.list) outputs.items) }
{
    let mut outputs = Vec::with_capacity(alloc, wants.len())?;
    for want in wants {
        let list = selected(alloc, sides, compared, &want.expr)?;
        outputs.push(Output {
            path: want.file,
            list,
        })?;
    }
    Ok(outputs)
}

// The entries of the rows that meet an expression.
fn selected(
    alloc: Global,
    sides: &Sides,
    compared: &Compared,
    expr: &Expr,
) -> Result<FlatList, OutOfMemory>
    requires left { IsSide (side sides.now.left_top sides.now.left) }
    requires right { IsSide (side sides.now.right_top sides.now.right) }
    requires rows { IsStrictlySortedBy path_cmp (map (λ row. row.path) compared.now.rows) }
    requires left_shaped { All (λ e. is_shaped e ≡ true) sides.now.left }
    requires right_shaped { All (λ e. is_shaped e ≡ true) sides.now.right }
    ensures selected { IfOk result (IsSelected expr.now compared.now.rows sides.now.left_top sides.now.right_top sides.now.left sides.now.right) }
    ensures shaped { IfOk result (All (λ e. is_shaped e ≡ true)) }
{
    let of_left = given_paths(alloc, compared, expr, false)?;
    let of_right = given_paths(alloc, compared, expr, true)?;
    joined(alloc, sides, &of_left, &of_right)
}

// The paths of the rows that meet an expression and for which this side stands.
fn given_paths(
    alloc: Global,
    compared: &Compared,
    expr: &Expr,
    dest: bool,
) -> Result<Vec<Path>, OutOfMemory>
    ensures { IfOk result (λ given. given.items ≡ given_paths expr.now dest compared.now.rows) }
{
    let mut given = Vec::new(alloc);
    for k in 0..compared.len() {
        add_given(&mut given, compared.row(k), expr, dest)?;
    }
    Ok(given)
}

fn add_given(given: &mut Vec<Path>, row: &Row, expr: &Expr, dest: bool) -> Result<(), OutOfMemory>
    ensures { OnOk result (given.new.items ≡ given.old.items ++ (if is_given expr.now dest row.now then row.now.path ∷ [] else [])) }
{
    if expr.holds(row) && is_of(row.exist, dest) {
        given.push(row.path.copy()?)?;
    }
    Ok(())
}

// Whether the destination stands for such a row, or the source.
fn is_of(exist: Exist, dest: bool) -> bool
    ensures { result ≡ (if dest then only_dest exist else not (only_dest exist)) }
{
    match exist {
        Exist::OnlyDest => dest,
        Exist::OnlySrc | Exist::Common => !dest,
    }
}
