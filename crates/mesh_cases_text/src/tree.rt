// Expressions of a query's tree in print: each list of parts in parentheses with its operator first, and `[..]` round
// what stands in parentheses.
use mesh_base_values::{ColType, Str};
use mesh_cases::Pen;
use mesh_list::Seq;
use mesh_query_grammar::surface::{
    AddExpr, AddSign, AndExpr, Args, Arm, CatExpr, Cmp, Function, MulExpr, MulSign, NotExpr,
    OrExpr, Primary, Test, Unary,
};

#[cycle(tree)]
pub fn put_expr(pen: &mut Pen, e: &OrExpr) {
    let many = e.parts.len() > 1;
    pen.put_if(many, b"(or");
    for part in e.parts.as_slice() {
        pen.put_if(many, b" ");
        put_and(pen, part);
    }
    pen.put_if(many, b")");
}

#[cycle(tree)]
fn put_and(pen: &mut Pen, e: &AndExpr) {
    let many = e.parts.len() > 1;
    pen.put_if(many, b"(and");
    for part in e.parts.as_slice() {
        pen.put_if(many, b" ");
        put_not(pen, part);
    }
    pen.put_if(many, b")");
}

#[cycle(tree)]
fn put_not(pen: &mut Pen, e: &NotExpr) {
    match e {
        NotExpr::Not { inner, .. } => {
            pen.put(b"(not ");
            put_not(pen, inner.get());
            pen.put(b")");
        }
        NotExpr::Plain { pred, .. } => {
            put_cat(pen, &pred.left);
            put_test(pen, &pred.test);
        }
    }
}

fn compared(cmp: Cmp) -> &'static [u8] {
    match cmp {
        Cmp::Eq => b" = ",
        Cmp::Ne => b" <> ",
        Cmp::Lt => b" < ",
        Cmp::Le => b" <= ",
        Cmp::Gt => b" > ",
        Cmp::Ge => b" >= ",
    }
}

fn either<'a>(negated: bool, no: &'a [u8], yes: &'a [u8]) -> &'a [u8] {
    if negated { no } else { yes }
}

#[cycle(tree)]
fn put_test(pen: &mut Pen, test: &Test) {
    match test {
        Test::Nothing => {}
        Test::Compare { cmp, right } => {
            pen.put(compared(*cmp));
            put_cat(pen, right);
        }
        Test::IsNull { negated } => pen.put(either(*negated, b" some", b" none")),
        Test::Between { negated, low, high } => {
            pen.put(either(*negated, b" outside ", b" within "));
            put_cat(pen, low);
            pen.put(b"..");
            put_cat(pen, high);
        }
        Test::OneOf { negated, of } => {
            pen.put(either(*negated, b" not-in", b" in"));
            put_exprs(pen, of);
        }
    }
}

#[cycle(tree)]
fn put_exprs(pen: &mut Pen, of: &Seq<OrExpr>) {
    for e in of.as_slice() {
        pen.put(b" ");
        put_expr(pen, e);
    }
}

#[cycle(tree)]
fn put_cat(pen: &mut Pen, e: &CatExpr) {
    let many = e.parts.len() > 1;
    pen.put_if(many, b"(cat");
    for part in e.parts.as_slice() {
        pen.put_if(many, b" ");
        put_sum(pen, part);
    }
    pen.put_if(many, b")");
}

fn added(sign: AddSign) -> &'static [u8] {
    match sign {
        AddSign::Plus => b" + ",
        AddSign::Minus => b" - ",
    }
}

#[cycle(tree)]
fn put_sum(pen: &mut Pen, e: &AddExpr) {
    pen.put_if(!e.rest.is_empty(), b"{");
    put_product(pen, &e.first);
    for step in e.rest.as_slice() {
        pen.put(added(step.sign));
        put_product(pen, &step.part);
    }
    pen.put_if(!e.rest.is_empty(), b"}");
}

fn multiplied(sign: MulSign) -> &'static [u8] {
    match sign {
        MulSign::Times => b" * ",
        MulSign::Over => b" / ",
        MulSign::Modulo => b" % ",
    }
}

#[cycle(tree)]
fn put_product(pen: &mut Pen, e: &MulExpr) {
    pen.put_if(!e.rest.is_empty(), b"{");
    put_unary(pen, &e.first);
    for step in e.rest.as_slice() {
        pen.put(multiplied(step.sign));
        put_unary(pen, &step.part);
    }
    pen.put_if(!e.rest.is_empty(), b"}");
}

fn put_casts(pen: &mut Pen, casts: &Seq<ColType>) {
    for kind in casts.as_slice() {
        pen.put(b"::");
        pen.put(type_name(*kind));
    }
}

#[cycle(tree)]
fn put_unary(pen: &mut Pen, e: &Unary) {
    match e {
        Unary::Minus { inner, .. } => {
            pen.put(b"(neg ");
            put_unary(pen, inner.get());
            pen.put(b")");
        }
        Unary::Plain { post, .. } => {
            put_primary(pen, &post.value);
            put_casts(pen, &post.casts);
        }
    }
}

fn type_name(kind: ColType) -> &'static [u8] {
    match kind {
        ColType::Int => b"int",
        ColType::Text => b"text",
        ColType::Date => b"date",
        ColType::Bool => b"bool",
    }
}

/// A name, behind another and a point where there is one.
pub fn put_qualified(pen: &mut Pen, front: &Option<Str>, name: &Str) {
    if let Some(front) = front {
        pen.put(front.as_slice());
        pen.put(b".");
    }
    pen.put(name.as_slice());
}

fn put_text(pen: &mut Pen, text: &Str) {
    pen.put(b"'");
    pen.shown(text.as_slice());
    pen.put(b"'");
}

/// A form with no expression inside it.
fn put_leaf(pen: &mut Pen, e: &Primary) {
    match e {
        Primary::Number { value, .. } => pen.count(*value),
        Primary::Text { text, .. } => put_text(pen, text),
        Primary::Date { day, .. } => {
            pen.put(b"day ");
            pen.number(i64::from(*day));
        }
        Primary::Truth { value, .. } => pen.put(either(*value, b"TRUE", b"FALSE")),
        Primary::Null { .. } => pen.put(b"NULL"),
        Primary::Macro { name, .. } => {
            pen.put(b"@");
            pen.put(name.as_slice());
        }
        Primary::Column { item, name, .. } => put_qualified(pen, item, name),
        _ => {}
    }
}

#[cycle(tree)]
fn put_primary(pen: &mut Pen, e: &Primary) {
    match e {
        Primary::Call { function, args, .. } => {
            pen.put(function_name(*function));
            put_args(pen, args);
        }
        Primary::Group { inner, .. } => {
            pen.put(b"[");
            put_expr(pen, inner.get());
            pen.put(b"]");
        }
        Primary::Case {
            operand,
            arms,
            otherwise,
            ..
        } => {
            pen.put(b"(case");
            if let Some(operand) = operand {
                pen.put(b" of ");
                put_expr(pen, operand.get());
            }
            put_arms(pen, arms);
            if let Some(otherwise) = otherwise {
                pen.put(b" else ");
                put_expr(pen, otherwise.get());
            }
            pen.put(b")");
        }
        Primary::Cast { value, to, .. } => {
            pen.put(b"(cast ");
            put_expr(pen, value.get());
            pen.word(type_name(*to));
            pen.put(b")");
        }
        leaf => put_leaf(pen, leaf),
    }
}

#[cycle(tree)]
fn put_arms(pen: &mut Pen, arms: &Seq<Arm>) {
    for arm in arms.as_slice() {
        pen.put(b" ");
        put_expr(pen, &arm.test);
        pen.put(b"->");
        put_expr(pen, &arm.value);
    }
}

#[cycle(tree)]
fn put_args(pen: &mut Pen, args: &Args) {
    match args {
        Args::Star { .. } => pen.put(b"(*)"),
        Args::Distinct { value, .. } => {
            pen.put(b"(distinct ");
            put_expr(pen, value.get());
            pen.put(b")");
        }
        Args::List { values, .. } => {
            pen.put(b"(");
            put_exprs(pen, values);
            pen.put(b")");
        }
    }
}

fn function_name(function: Function) -> &'static [u8] {
    match function {
        Function::Abs => b"abs",
        Function::Length => b"length",
        Function::Upper => b"upper",
        Function::Lower => b"lower",
        Function::Nullif => b"nullif",
        Function::Coalesce => b"coalesce",
        Function::Count => b"count",
        Function::Sum => b"sum",
        Function::Min => b"min",
        Function::Max => b"max",
    }
}
