// What a pricing line can ask for.
use facts::FactsForm;
use lineforms::SheetName;

// A pricing line as it was read. T is the text of hexadecimal digits that a house line holds, two for each byte.
#[derive(Clone, Copy)]
pub enum PricingLine<T> {
    // blank, or a comment
    Silent,
    // of no known form, as every line about a board or a cabinet
    Unreadable,
    Rating {
        network: u64,
        ampere: u64,
    },
    House(T),
    Price {
        sheet: SheetName,
        code: u64,
        facts: FactsForm,
    },
    Choose {
        sheet: SheetName,
        facts: FactsForm,
    },
}
