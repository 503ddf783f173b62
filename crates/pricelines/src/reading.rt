// Reading a pricing line.
ghost use Rattle.std.specs.Prelude.{◌≡◌, ◌≢◌, false};
ghost use Rattle.scriptlines.specs.declared.line.Line.TheVariants.{Silent};
ghost use Rattle.scriptlines.specs.Lines.{said, line_of};
ghost use Rattle.pricelines.specs.declared.line.PricingLine.TheVariants as pricing;
ghost use Rattle.pricelines.specs.Lines.{is_pricing};
ghost use Rattle.pricelines.specs.Pricing.{told, pricing_of};

use crate::line::PricingLine;
use scriptlines::Line;

// A line of another form than the pricing lines' is unreadable.
impl<'a> From<Line<&'a [u8]>> for PricingLine<&'a [u8]> {
    ghost from_gives = { λ line read. told read ≡ pricing_of (said line) };

    fn from(line: Line<&'a [u8]>) -> PricingLine<&'a [u8]> {
        match line {
            Line::Silent => PricingLine::Silent,
            Line::Rating { network, ampere } => PricingLine::Rating { network, ampere },
            Line::House(text) => PricingLine::House(text),
            Line::Price { sheet, code, facts } => PricingLine::Price { sheet, code, facts },
            Line::Choose { sheet, facts } => PricingLine::Choose { sheet, facts },
            Line::Unreadable
            | Line::Board(_)
            | Line::Call(_)
            | Line::Row(_)
            | Line::Store { .. }
            | Line::Clear(_) => PricingLine::Unreadable,
        }
    }
}

// What a line asks for; every line of another form is unreadable.
pub fn read_line<'a>(text: &'a [u8]) -> PricingLine<&'a [u8]>
    ensures value { told result ≡ pricing_of (line_of text.now) }
    ensures other { is_pricing (line_of text.now) ≡ false → line_of text.now ≢ Silent → result ≡ pricing.Unreadable }
{
    PricingLine::from(scriptlines::read_line(text))
}
