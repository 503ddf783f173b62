// What a line can ask for.
use callforms::BoardForm;
use facts::FactsForm;
use lineforms::SheetName;
use run::Call;

// A line as it was read. T is the text of hexadecimal digits that some lines hold, two for each byte.
#[derive(Drop)]
pub enum Line<T> {
    // blank, or a comment
    Silent,
    // of no known form
    Unreadable,
    Rating {
        network: u64,
        ampere: u64,
    },
    House(T),
    Price {
        sheet: SheetName,
        code: u64,
        facts: FactsForm,
    },
    Choose {
        sheet: SheetName,
        facts: FactsForm,
    },
    // a new board
    Board(BoardForm),
    // a call on the cabinet
    Call(Call<SheetName>),
    // the row of a number as the board holds it
    Row(u64),
    // a row stored by an earlier user of the board
    Store {
        number: u64,
        text: T,
    },
    // a row cleared by an earlier user of the board
    Clear(u64),
}
