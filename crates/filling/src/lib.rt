//! The sheets of the two houses, and how each is filled in.
#![tactic(auto)]

ghost use Rattle.std.specs.Prelude.{◌≡◌, Some};
ghost use Rattle.auction.specs.Refusals.{Answered, Always};
ghost use Rattle.history.specs.Right.{Fitting};
ghost use Rattle.filling.specs.Sheets.{HasPlace, Filled, SheetFilled, filling_for, Blank};

use auction::{Fault, House, PerHouse};
use history::Filling;
use sheets::Sheet;

/// The sheet of each house.
pub type Sheets = PerHouse<Sheet>;

/// The sheets of a new hour.
pub fn blank() -> Sheets
    ensures { Blank result }
{
    PerHouse {
        zero: Sheet::empty(),
        one: Sheet::empty(),
    }
}

/// Fills one number into the sheet of a house.
pub fn fill(sheets: &mut Sheets, house: House, filling: Filling) -> Result<(), Fault>
    ensures { Answered result (HasPlace filling) (Fitting filling) Always (λ _. Filled sheets.old sheets.new (filling_for house filling)) (sheets.new ≡ sheets.old) }
{
    fill_sheet(sheets.of_mut(house), filling)
}

/// Fills one number into a sheet.
fn fill_sheet(sheet: &mut Sheet, filling: Filling) -> Result<(), Fault>
    ensures { Answered result (HasPlace filling) (Fitting filling) Always (λ _. SheetFilled sheet.old sheet.new (Some filling)) (sheet.new ≡ sheet.old) }
{
    match filling {
        Filling::Quantity { list, number, kwh } => {
            sheet.fill_quantity(usize::from(list), usize::from(number), kwh)
        }
        Filling::Lambda { lambda } => sheet.fill_lambda(lambda),
        Filling::ShadowPrice { line, price } => sheet.fill_shadow_price(usize::from(line), price),
    }
}
