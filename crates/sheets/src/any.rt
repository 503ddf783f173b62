// One of the sheets that a script can name.
ghost use Rattle.std.specs.Prelude.{◌≡◌};
ghost use Rattle.house.specs.Houses.{lines_of};
ghost use Rattle.sheets.specs.Named.{tariff_of, tariff_named};
ghost use Rattle.decree.specs.Decreed.{decree_tariff};
ghost use Rattle.decree.specs.Decreeing;
ghost use Rattle.house.specs.Tariffs.{house_tariff};
ghost use Rattle.protected.specs.Layers.{layer-lawful};
ghost use Rattle.sheets.specs.declared.any.AnySheet.TheVariants.{Decree, House, ProtectedDecree, ProtectedHouse};
ghost use Rattle.sheets.specs.SheetOfAnyLemmas.{lines-lawful};

use decree::Decree;
use facts::Facts;
use house::House;
use protected::Protected;
use script::SheetName;
use sheet::Sheet;

// A sheet of any kind: the decree sheet, the house sheet, or the protected layer over one of them.
#[derive(Drop)]
pub enum AnySheet {
    Decree(Decree),
    House(House),
    ProtectedDecree(Protected<Decree>),
    ProtectedHouse(Protected<House>),
}

impl AnySheet {
    // The sheet of a name, where this is the house sheet.
    pub fn named(name: SheetName, house: House) -> AnySheet
        ensures { tariff_of result ≡ tariff_named name (lines_of house) }
    {
        match name {
            SheetName::Decree => AnySheet::Decree(Decree),
            SheetName::House => AnySheet::House(house),
            SheetName::ProtectedDecree => AnySheet::ProtectedDecree(Protected::new(Decree)),
            SheetName::ProtectedHouse => AnySheet::ProtectedHouse(Protected::new(house)),
        }
    }
}

// A match in each method: a box over any sheet would take memory in a call on a made cabinet.
impl Sheet for AnySheet {
    ghost tariff = { tariff_of };

    ghost lawful = { elim [
      | Decree s ↦ Decreeing.lawful
      | House s ↦ lines-lawful s
      | ProtectedDecree s ↦ layer-lawful decree_tariff Decreeing.lawful
      | ProtectedHouse s ↦ layer-lawful (house_tariff (lines_of s.below)) (lines-lawful s.below)
    ] };

    fn count(&self) -> u64 {
        match self {
            AnySheet::Decree(sheet) => sheet.count(),
            AnySheet::House(sheet) => sheet.count(),
            AnySheet::ProtectedDecree(sheet) => sheet.count(),
            AnySheet::ProtectedHouse(sheet) => sheet.count(),
        }
    }

    fn permits(&self, code: u64, facts: &Facts) -> bool {
        match self {
            AnySheet::Decree(sheet) => sheet.permits(code, facts),
            AnySheet::House(sheet) => sheet.permits(code, facts),
            AnySheet::ProtectedDecree(sheet) => sheet.permits(code, facts),
            AnySheet::ProtectedHouse(sheet) => sheet.permits(code, facts),
        }
    }

    fn parts(&self, code: u64, facts: &Facts) -> (u64, u64) {
        match self {
            AnySheet::Decree(sheet) => sheet.parts(code, facts),
            AnySheet::House(sheet) => sheet.parts(code, facts),
            AnySheet::ProtectedDecree(sheet) => sheet.parts(code, facts),
            AnySheet::ProtectedHouse(sheet) => sheet.parts(code, facts),
        }
    }
}
