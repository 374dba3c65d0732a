// The fields of a cron's text: words, numbers, items.
ghost use Rattle.std.specs.Prelude.{◌≡◌, ◌&&◌, if◌then◌else◌, nat_le, ◌+◌, ◌-◌, ◌%◌, ◌<◌, ◌≤◌, ◌==◌, ◌^◌, drop, length, min, true, false, IsSome, MatchOption};
ghost use Rattle.std.specs.List.{after_first, before_first, prefix_len, list_any, list_all, position_or_len};
ghost use Rattle.mesh_time.specs.CronText.{after_word, field_has, front, high_end, is_digit, is_field, is_item, is_number, is_range, is_star, is_stepped, is_text, items, item_first, item_has, item_last, item_step, low_end, number, same_text, set_of, stands_in, step_text, trimmed, week_has, word};

// The first word of a text, and what stands after it.
#[tactic(auto, unfolding(crate::specs::CronText::word, crate::specs::CronText::after_word))]
pub(crate) fn take_word(text: &[u8]) -> (&[u8], &[u8])
    ensures word { result.0.now ≡ word text.now }
    ensures rest { result.1.now ≡ after_word text.now }
{
    cut(trimmed(text), b' ')
}

// The text from its first byte on that is no space.
fn trimmed(text: &[u8]) -> &[u8]
    ensures { result.now ≡ trimmed text.now }
{
    &text[spaces(text)..]
}

// How many spaces a text begins with.
fn spaces(text: &[u8]) -> usize
    ensures count { result ≡ prefix_len (λ b. b == 32) text.now }
    ensures bound { result ≤ length text.now }
{
    for (i, b) in text.iter().enumerate() {
        if *b != b' ' {
            return i;
        }
    }
    text.len()
}

// What stands before the first such byte of a text, and what after it. Where there's none, the text itself and nothing.
fn cut(text: &[u8], byte: u8) -> (&[u8], &[u8])
    ensures before { result.0.now ≡ before_first (λ b. b == byte) text.now }
    ensures after { result.1.now ≡ after_first (λ b. b == byte) text.now }
{
    let place = place_of(text, byte);
    (&text[..place], after(text, place))
}

// What stands after a place.
fn after(text: &[u8], place: usize) -> &[u8]
    requires { place ≤ length text.now }
    ensures { result.now ≡ drop (place + 1) text.now }
{
    if place < text.len() {
        &text[place + 1..]
    } else {
        &[]
    }
}

// Where a byte first stands in a text, or its end.
fn place_of(text: &[u8], byte: u8) -> usize
    ensures place { result ≡ position_or_len (λ b. b == byte) text.now }
    ensures bound { result ≤ length text.now }
{
    for (i, b) in text.iter().enumerate() {
        if *b == byte {
            return i;
        }
    }
    text.len()
}

// Whether two texts are the same.
pub(crate) fn same_text(left: &[u8], right: &[u8]) -> bool
    ensures { result ≡ same_text left.now right.now }
{
    left == right
}

// Whether a field is `*`.
pub(crate) fn is_star(text: &[u8]) -> bool
    ensures { result ≡ is_star text.now }
{
    same_text(text, b"*")
}

// Whether a byte stands in a text.
fn stands_in(byte: u8, text: &[u8]) -> bool
    ensures { result ≡ stands_in byte text.now }
{
    text.iter().any(|b| *b == byte)
}

// Whether a text is a number.
#[tactic(auto, unfolding(crate::specs::CronText::is_number))]
fn is_number(text: &[u8]) -> bool
    ensures { result ≡ is_number text.now }
{
    text.len() > 0 && are_digits(text)
}

fn are_digits(text: &[u8]) -> bool
    ensures { result ≡ list_all is_digit text.now }
{
    text.iter().all(|b| is_digit(*b))
}

fn is_digit(byte: u8) -> bool
    ensures { result ≡ is_digit byte }
{
    byte >= b'0' && byte <= b'9'
}

// The number of a text of digits, or 1000 where it is more: no field goes so far.
fn number(text: &[u8]) -> u32
    ensures value { result ≡ min 1000 (number text.now) }
    ensures bound { result ≤ 1000 }
{
    let mut value: u32 = 0;
    for byte in text {
        value = (10 * value + byte.saturating_sub(48) as u32).min(1000);
    }
    value
}

// The two numbers of `a-b`, or twice that of `n`.
fn ends(text: &[u8]) -> (&[u8], &[u8])
    ensures low { result.0.now ≡ low_end text.now }
    ensures high { result.1.now ≡ high_end text.now }
{
    let (before, after) = cut(text, b'-');
    if stands_in(b'-', text) {
        (before, after)
    } else {
        (before, text)
    }
}

// Whether a text is `n` or `a-b` within bounds.
#[tactic(auto, unfolding(crate::specs::CronText::is_range))]
fn is_range(low: u32, high: u32, text: &[u8]) -> bool
    requires { high < 1000 }
    ensures { result ≡ is_range low high text.now }
{
    let (first, last) = ends(text);
    let (from, to) = (number(first), number(last));
    is_number(first) && is_number(last) && low <= from && from <= to && to <= high
}

// Whether a text is `*` or `a-b` within bounds.
#[tactic(auto, unfolding(crate::specs::CronText::is_stepped))]
fn is_stepped(low: u32, high: u32, text: &[u8]) -> bool
    requires { high < 1000 }
    ensures { result ≡ is_stepped low high text.now }
{
    is_star(text) || (stands_in(b'-', text) && is_range(low, high, text))
}

// Whether a text is an item of a field with these bounds.
#[tactic(auto, unfolding(crate::specs::CronText::is_item))]
fn is_item(low: u32, high: u32, item: &[u8]) -> bool
    requires { high < 1000 }
    ensures { result ≡ is_item low high item.now }
{
    let (front, step) = cut(item, b'/');
    if stands_in(b'/', item) {
        is_stepped(low, high, front) && is_number(step) && number(step) > 0
    } else {
        is_range(low, high, front)
    }
}

// The first number of an item.
#[tactic(auto, unfolding(crate::specs::CronText::item_first))]
fn item_first(low: u32, item: &[u8]) -> u32
    requires { low ≤ 1000 }
    ensures { result ≡ min 1000 (item_first low item.now) }
{
    let (front, _) = cut(item, b'/');
    if is_star(front) {
        low
    } else {
        number(ends(front).0)
    }
}

// The number up to which an item goes.
#[tactic(auto, unfolding(crate::specs::CronText::item_last))]
fn item_last(high: u32, item: &[u8]) -> u32
    requires { high ≤ 1000 }
    ensures { result ≡ min 1000 (item_last high item.now) }
{
    let (front, _) = cut(item, b'/');
    if is_star(front) {
        high
    } else {
        number(ends(front).1)
    }
}

// The step of an item.
#[tactic(auto, unfolding(crate::specs::CronText::item_step))]
fn item_step(item: &[u8]) -> u32
    ensures { result ≡ min 1000 (item_step item.now) }
{
    let (_, step) = cut(item, b'/');
    if stands_in(b'/', item) {
        number(step)
    } else {
        1
    }
}

// Whether an item matches a value.
#[tactic(auto, using(crate::proofs::FieldLaws::step_positive), unfolding(crate::specs::CronText::item_has))]
fn item_has(low: u32, high: u32, value: u32, item: &[u8]) -> bool
    requires high { high < 1000 }
    requires low { low < 1000 }
    requires value { value < 1000 }
    ensures { result ≡ item_has low high value item.now }
{
    if !is_item(low, high, item) {
        return false;
    }
    let first = item_first(low, item);
    let last = item_last(high, item);
    let step = item_step(item);
    steps_to(first, last, step, value)
}

// Whether steps from the first number reach a value up to the last.
fn steps_to(first: u32, last: u32, step: u32, value: u32) -> bool
    requires { 0 < step }
    ensures { result ≡ (nat_le first value && (nat_le value last && ((value - first) % step == 0))) }
{
    first <= value && value <= last && (value - first) % step == 0
}

// Whether a text is a comma list of items.
fn are_items(low: u32, high: u32, field: &[u8]) -> bool
    requires { high < 1000 }
    ensures { result ≡ list_all (is_item low high) (items field.now) }
{
    let mut rest = field;
    loop {
        let (item, more) = cut(rest, b',');
        if !is_item(low, high, item) {
            return false;
        }
        if item.len() == rest.len() {
            return true;
        }
        rest = more;
    }
}

// Whether an item of a comma list matches a value.
fn some_item_has(low: u32, high: u32, value: u32, field: &[u8]) -> bool
    requires high { high < 1000 }
    requires low { low < 1000 }
    requires value { value < 1000 }
    ensures { result ≡ list_any (item_has low high value) (items field.now) }
{
    let mut rest = field;
    loop {
        let (item, more) = cut(rest, b',');
        if item_has(low, high, value, item) {
            return true;
        }
        if item.len() == rest.len() {
            return false;
        }
        rest = more;
    }
}

// Whether a text is a field with these bounds.
#[tactic(auto, unfolding(crate::specs::CronText::is_field))]
pub(crate) fn is_field(low: u32, high: u32, field: &[u8]) -> bool
    requires { high < 1000 }
    ensures { result ≡ is_field low high field.now }
{
    is_star(field) || are_items(low, high, field)
}

// Whether a field matches a value.
#[tactic(auto, unfolding(crate::specs::CronText::field_has))]
fn field_has(low: u32, high: u32, field: &[u8], value: u32) -> bool
    requires high { high < 1000 }
    requires low { low < 1000 }
    requires value { value < 1000 }
    ensures { result ≡ field_has low high field.now value }
{
    let whole = is_star(field) && low <= value && value <= high;
    whole || some_item_has(low, high, value, field)
}

// Whether the field of the days of the week matches one.
#[tactic(auto, unfolding(crate::specs::CronText::week_has))]
fn week_has(field: &[u8], value: u32) -> bool
    requires { value < 7 }
    ensures { result ≡ week_has field.now value }
{
    field_has(0, 7, field, value) || (value == 0 && field_has(0, 7, field, 7))
}

// The set of the values that a field matches.
pub(crate) fn values(low: u32, high: u32, field: &[u8]) -> u64
    requires low { low ≤ high }
    requires high { high < 60 }
    ensures value { result ≡ set_of (field_has low high field.now) (high + 1) }
    ensures bound { result < 2 ^ (high + 1) }
{
    let mut set = 0;
    for value in 0..high + 1 {
        set += bit_where(field_has(low, high, field, value), value);
    }
    set
}

// The set of the days of the week that a field matches.
pub(crate) fn days_of_week(field: &[u8]) -> u64
    ensures value { result ≡ set_of (week_has field.now) 7 }
    ensures bound { result < 2 ^ 7 }
{
    let mut set = 0;
    for value in 0..7 {
        set += bit_where(week_has(field, value), value);
    }
    set
}

// The set of one value, or of none.
#[tactic(auto, using(crate::proofs::SetLaws::bit_fits))]
fn bit_where(there: bool, value: u32) -> u64
    requires { value < 60 }
    ensures value { result ≡ (if there then 2 ^ value else 0) }
    ensures bound { result ≤ 2 ^ 59 }
{
    if there { bit(value) } else { 0 }
}

// The set of one value.
fn bit(value: u32) -> u64
    requires { value < 60 }
    ensures { result ≡ 2 ^ value }
{
    1 << value
}
