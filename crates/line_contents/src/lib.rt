// A reader for each form, and which of them a line's name asks for: from the bytes of a line to the data it holds.
#![tactic(auto)]

ghost use Rattle.std.specs.Prelude.{true, false, ◌≡◌};
ghost use Rattle.exact.specs.Text.{text};
ghost use Rattle.line_forms.specs.Bytes.{stands_at, after};
ghost use Rattle.line_forms.specs.Contents.{origin_form, mark_text};
ghost use Rattle.line_forms.specs.Parsing.{values_at, after_form};
ghost use Rattle.line_forms.specs.Readings.{class_at, kind_at, header_held, loan_held, policy_held, derivative_held, asset_held, plain_held, signed_held, index_held};
ghost use Rattle.line_forms.specs.Readings.{mark_held, content_of};

use fixed_point::Signed;
use line_forms::{
    Amount, Asset, Class, Content, Derivative, Header, IndexValue, Item, Kind, Loan, MarkLine,
    Policy,
};

mod areas;

// The month and the area that end a loan, and the position after them.
#[derive(Clone, Copy)]
struct Origin {
    from: u64,
    area: u64,
    next: usize,
}

fn header(line: &[u8]) -> Content
    ensures { result ≡ header_held line.now }
{
    let loans = line_fields::number_after(line, 0, b"(book (loans ");
    let unscored = line_fields::number_after(line, loans.next, b") (unscored ");
    let fresh = line_fields::number_after(line, unscored.next, b") (fresh ");
    let held = line_fields::number_after(line, fresh.next, b") (held ");
    if line_fields::skip(line, held.next, b"))") == line.len() {
        return Content::Header(Header {
            loans: loans.value,
            unscored: unscored.value,
            fresh: fresh.value,
            held: held.value,
        });
    }
    Content::NoForm
}

// Each text is read apart from the field after it: the compiler then knows its length.
fn origin_at(line: &[u8], at: usize) -> Origin
    ensures { ((result.from, (result.area, tt)) ≡ values_at origin_form line.now at) × (result.next ≡ after_form origin_form line.now at) }
{
    let from = line_fields::six_at(line, line_fields::skip(line, at, b") (from "));
    let area = areas::area_at(line, line_fields::skip(line, from.next, b") (area "));
    Origin {
        from: from.value,
        area: area.value,
        next: line_fields::skip(line, area.next, b"))"),
    }
}

// A line that begins as a loan. Each text that does not stand ends the reading, so that the next field is begun before the text is compared.
fn loan(line: &[u8]) -> Content
    requires { stands_at line.now 0 (text "(loan (bal ") ≡ true }
    ensures { result ≡ loan_held line.now }
{
    let balance = line_fields::long_at(line, 11);
    if !line_fields::stands(line, balance.next, b") (val ") {
        return Content::NoForm;
    }
    let value = line_fields::long_at(line, balance.next + 7);
    if !line_fields::stands(line, value.next, b") (amort ") {
        return Content::NoForm;
    }
    let amortization = line_fields::short_at(line, value.next + 9);
    if !line_fields::stands(line, amortization.next, b") (term ") {
        return Content::NoForm;
    }
    let term = line_fields::short_at(line, amortization.next + 8);
    if !line_fields::stands(line, term.next, b") (score ") {
        return Content::NoForm;
    }
    let score = line_fields::score_at(line, term.next + 9);
    if !line_fields::stands(line, score.next, b") (sup ") {
        return Content::NoForm;
    }
    let supplement = line_fields::short_at(line, score.next + 7);
    let origin = origin_at(line, supplement.next);
    if origin.next == line.len() {
        let q = score.score;
        return Content::Loan(Loan {
            balance: balance.value,
            value: value.value,
            amortization: amortization.value,
            term: term.value,
            score: q,
            supplement: supplement.value,
            from: origin.from,
            area: origin.area,
        });
    }
    Content::NoForm
}

fn class_at(place: u64) -> Class
    ensures { result ≡ class_at place }
{
    if place == 0 {
        return Class::Home;
    }
    Class::Multi
}

fn policy(line: &[u8]) -> Content
    ensures { result ≡ policy_held line.now }
{
    let class = line_fields::word_after(line, 0, b"(policy (class ", b"home|multi");
    let premium = line_fields::number_after(line, class.next, b") (prem ");
    let term = line_fields::number_after(line, premium.next, b") (term ");
    let completed = line_fields::number_after(line, term.next, b") (done ");
    if line_fields::skip(line, completed.next, b"))") == line.len() {
        return Content::Policy(Policy {
            class: class_at(class.value),
            premium: premium.value,
            term: term.value,
            completed: completed.value,
        });
    }
    Content::NoForm
}

fn kind_at(place: u64) -> Kind
    ensures { result ≡ kind_at place }
{
    match place {
        0 => Kind::Rate,
        1 => Kind::Float,
        2 => Kind::Fx,
        3 => Kind::Equity,
        4 => Kind::Metal,
        _ => Kind::Other,
    }
}

fn derivative(line: &[u8]) -> Content
    ensures { result ≡ derivative_held line.now }
{
    let kind = line_fields::word_after(
        line,
        0,
        b"(deriv (kind ",
        b"rate|float|fx|equity|metal|other",
    );
    let cost = line_fields::signed_after(line, kind.next, b") (cost ");
    let notional = line_fields::number_after(line, cost.next, b") (notional ");
    let months = line_fields::number_after(line, notional.next, b") (months ");
    let payments = line_fields::number_after(line, months.next, b") (pays ");
    let factor = line_fields::number_after(line, payments.next, b") (factor ");
    if line_fields::skip(line, factor.next, b"))") == line.len() {
        let amount = cost.amount;
        return Content::Derivative(Derivative {
            kind: kind_at(kind.value),
            cost: amount,
            notional: notional.value,
            months: months.value,
            payments: payments.value,
            factor: factor.value,
        });
    }
    Content::NoForm
}

fn asset(line: &[u8]) -> Content
    ensures { result ≡ asset_held line.now }
{
    let amount = line_fields::number_after(line, 0, b"(asset (amount ");
    let factor = line_fields::number_after(line, amount.next, b") (factor ");
    if line_fields::skip(line, factor.next, b"))") == line.len() {
        return Content::Asset(Asset {
            amount: amount.value,
            factor: factor.value,
        });
    }
    Content::NoForm
}

// An amount without a sign after a text.
fn plain(line: &[u8], item: Item, text: &[u8]) -> Content
    ensures { result ≡ plain_held item text.now line.now }
{
    let n = line_fields::number_after(line, 0, text);
    if line_fields::skip(line, n.next, b")") == line.len() {
        return Content::Amount(Amount {
            item,
            amount: Signed {
                plus: n.value,
                minus: 0,
            },
        });
    }
    Content::NoForm
}

// An amount with a sign after a text.
fn signed(line: &[u8], item: Item, text: &[u8]) -> Content
    ensures { result ≡ signed_held item text.now line.now }
{
    let n = line_fields::signed_after(line, 0, text);
    if line_fields::skip(line, n.next, b")") == line.len() {
        let amount = n.amount;
        return Content::Amount(Amount { item, amount });
    }
    Content::NoForm
}

fn index(line: &[u8]) -> Content
    ensures { result ≡ index_held line.now }
{
    let area = areas::area_at(line, line_fields::skip(line, 0, b"(index "));
    let month = line_fields::number_after(line, area.next, b" ");
    let value = line_fields::number_after(line, month.next, b" ");
    if line_fields::skip(line, value.next, b")") == line.len() {
        return Content::Index(IndexValue {
            area: area.value,
            month: month.value,
            value: value.value,
        });
    }
    Content::NoForm
}

// The position after the text that a mark begins with, or a return to one.
fn mark_begun(line: &[u8], back: bool) -> usize
    ensures { result ≡ after line.now 0 (mark_text back) }
{
    if back {
        return line_fields::skip(line, 0, b"(back ");
    }
    line_fields::skip(line, 0, b"(mark ")
}

fn mark(line: &[u8], back: bool) -> Content
    ensures { result ≡ mark_held back line.now }
{
    let name = line_fields::name_at(line, mark_begun(line, back));
    if line_fields::skip(line, name.next, b")") == line.len() {
        return Content::Mark(MarkLine {
            back,
            name: name.value,
        });
    }
    Content::NoForm
}

// What a line that does not begin as a loan holds, by the name after its opening bracket.
fn other(line: &[u8]) -> Content
    requires { stands_at line.now 0 (text "(loan (bal ") ≡ false }
    ensures { result ≡ content_of line.now }
{
    let name = line_fields::word_at(
        line,
        1,
        b"loan|policy|deriv|asset|book|claims|lossc|stated|equity|aoci|b|c|index|mark|back",
    );
    let place = name.value;
    match place {
        0 => Content::NoForm,
        1 => policy(line),
        2 => derivative(line),
        3 => asset(line),
        4 => header(line),
        5 => plain(line, Item::Claims, b"(claims "),
        6 => plain(line, Item::Lossc, b"(lossc "),
        7 => plain(line, Item::Stated, b"(stated "),
        8 => signed(line, Item::Equity, b"(equity "),
        9 => signed(line, Item::Aoci, b"(aoci "),
        10 => plain(line, Item::B, b"(b "),
        11 => plain(line, Item::C, b"(c "),
        12 => index(line),
        13 => mark(line, false),
        14 => mark(line, true),
        _ => Content::NoForm,
    }
}

// What a line holds. Most lines are loans, so this form is tried first.
pub fn content(line: &[u8]) -> Content
    ensures { result ≡ content_of line.now }
{
    if line_fields::stands(line, 0, b"(loan (bal ") {
        return loan(line);
    }
    other(line)
}
