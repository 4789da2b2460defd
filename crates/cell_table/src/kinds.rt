ghost use Rattle.std.specs.Prelude.{◌≡◌, ◌≢◌, IfSome, IfNone};
ghost use Rattle.coco_base.specs.declared.cell.Kind.{Kind};
ghost use Rattle.coco_model.specs.Cells.{input_count};
ghost use Rattle.cell_table.specs.Names.{type_name};

use coco_base::Kind;

/// The kind of a cell type of a Yosys netlist, as `$_AND_`; none where the type is not one of the sixteen gates.
pub fn kind_of(text: &str) -> Option<Kind>
    ensures some { IfSome result (λ kind. text.now ≡ type_name kind) }
    ensures none { IfNone result ((kind : Kind) → text.now ≢ type_name kind) }
{
    match text {
        "$_BUF_" => Some(Kind::Buf),
        "$_NOT_" => Some(Kind::Not),
        "$_AND_" => Some(Kind::And),
        "$_NAND_" => Some(Kind::Nand),
        "$_OR_" => Some(Kind::Or),
        "$_NOR_" => Some(Kind::Nor),
        "$_XOR_" => Some(Kind::Xor),
        "$_XNOR_" => Some(Kind::Xnor),
        "$_ANDNOT_" => Some(Kind::AndNot),
        "$_ORNOT_" => Some(Kind::OrNot),
        "$_MUX_" => Some(Kind::Mux),
        "$_NMUX_" => Some(Kind::Nmux),
        "$_AOI3_" => Some(Kind::Aoi3),
        "$_OAI3_" => Some(Kind::Oai3),
        "$_AOI4_" => Some(Kind::Aoi4),
        "$_OAI4_" => Some(Kind::Oai4),
        _ => None,
    }
}

/// The number of inputs, 1 to 4, in the order A, B, C, D, and for multiplexers A, B, S.
pub fn inputs_of(kind: Kind) -> u32
    ensures { result ≡ input_count kind }
{
    match kind {
        Kind::Buf | Kind::Not => 1,
        Kind::And
        | Kind::Nand
        | Kind::Or
        | Kind::Nor
        | Kind::Xor
        | Kind::Xnor
        | Kind::AndNot
        | Kind::OrNot => 2,
        Kind::Mux | Kind::Nmux | Kind::Aoi3 | Kind::Oai3 => 3,
        Kind::Aoi4 | Kind::Oai4 => 4,
    }
}
