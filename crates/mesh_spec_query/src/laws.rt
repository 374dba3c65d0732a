// What holds of the definitions.
ghost use Rattle.std.specs.Prelude.{◌≡◌, true, ◌↔◌, ℕ, Bool, List, map, Some, None};
ghost use Rattle.std.specs.List.{All, Contains};
ghost use Rattle.mesh_base_values.specs.declared.times.Bounds.{Bounds};
ghost use Rattle.mesh_base_values.specs.declared.values.Cell.{Cell};
ghost use Rattle.mesh_base_values.specs.declared.values.Cell.TheVariants as cell;
ghost use Rattle.mesh_base_values.specs.declared.values.ColType.{ColType};
ghost use Rattle.mesh_base_values.specs.declared.values.Column.{Column};
ghost use Rattle.mesh_base.specs.declared.expressions.AggKind.{AggKind};
ghost use Rattle.mesh_base.specs.declared.expressions.Expr.{Expr};
ghost use Rattle.mesh_base.specs.declared.expressions.Expr as expr;
ghost use Rattle.mesh_base.specs.declared.expressions.Func.{Func};
ghost use Rattle.mesh_base.specs.declared.expressions.Op.{Op};
ghost use Rattle.mesh_base.specs.declared.expressions.Var.{Var};
ghost use Rattle.mesh_base.specs.declared.expressions.When.{When};
ghost use Rattle.mesh_time_days.specs.casts.Casts.{cast_value};
ghost use Rattle.mesh_spec_query.specs.Aggregates.{agg_value, count_of};
ghost use Rattle.mesh_spec_query.specs.Cells.{between, case_value, func_value, is_null, negative, one_of, op_value, opposite};
ghost use Rattle.mesh_spec_query.specs.Ev.{Ev, Scope, Seen, at_row, same_expr};
ghost use Rattle.mesh_spec_query.specs.Macros.{macro_value};
ghost use Rattle.mesh_spec_query.specs.Named.{columns, only, Covers};
ghost use Rattle.mesh_spec_query.specs.Sel.{Group, Joined, group_scope, groups, key_list, row_scope};

/// A part equals a key where both are the same expression.
#[tactic(auto, using(mesh_base::proofs::Equal::is_equality))]
pub fn parts_equal_keys_as_expressions()
    ensures { (a b : Expr) → (same_expr a b ≡ true) ↔ (a ≡ b) }
{}

/// The value of an expression that no key equals, by its form and the values of its parts: for a row, where there are
/// no keys, and in a group. An aggregate has a value in a group alone.
pub fn values_go_by_the_form()
    ensures literal { (c : Cell) (s : Scope) → ¬ Contains s.keys (expr.Literal c) → Ev (expr.Literal c) s ≡ c }
    ensures column { (item : ℕ) (name : List ℕ) (s : Scope) → ¬ Contains s.keys (expr.Col item name) → Ev (expr.Col item name) s ≡ s.column item name }
    ensures end_of_interval { (var : Var) (s : Scope) → ¬ Contains s.keys (expr.Macro var) → Ev (expr.Macro var) s ≡ macro_value var s.bounds }
    ensures binary { (op : Op) (a b : Expr) (s : Scope) → ¬ Contains s.keys (expr.Binary op a b) → Ev (expr.Binary op a b) s ≡ op_value op (Ev a s) (Ev b s) }
    ensures negated { (a : Expr) (s : Scope) → ¬ Contains s.keys (expr.Neg a) → Ev (expr.Neg a) s ≡ negative (Ev a s) }
    ensures opposed { (a : Expr) (s : Scope) → ¬ Contains s.keys (expr.Not a) → Ev (expr.Not a) s ≡ opposite (Ev a s) }
    ensures nullness { (a : Expr) (s : Scope) → ¬ Contains s.keys (expr.IsNull a) → Ev (expr.IsNull a) s ≡ cell.Bool (is_null (Ev a s)) }
    ensures betweenness { (a low high : Expr) (s : Scope) → ¬ Contains s.keys (expr.Between a low high) → Ev (expr.Between a low high) s ≡ between (Ev a s) (Ev low s) (Ev high s) }
    ensures one_of_many { (a : Expr) (all : List Expr) (s : Scope) → ¬ Contains s.keys (expr.OneOf a all) → Ev (expr.OneOf a all) s ≡ one_of (Ev a s) (map (λ e. Ev e s) all) }
    ensures cast { (kind : ColType) (a : Expr) (s : Scope) → ¬ Contains s.keys (expr.Cast kind a) → Ev (expr.Cast kind a) s ≡ cast_value kind (Ev a s) }
    ensures call { (func : Func) (args : List Expr) (s : Scope) → ¬ Contains s.keys (expr.Call func args) → Ev (expr.Call func args) s ≡ func_value func (map (λ e. Ev e s) args) }
    ensures choice { (whens : List When) (otherwise : Expr) (s : Scope) → ¬ Contains s.keys (expr.Case whens otherwise) → Ev (expr.Case whens otherwise) s ≡ case_value (map (λ (w : When). (Ev w.test s, Ev w.value s)) whens) (Ev otherwise s) }
    ensures count_outside { (s : Scope) → ¬ Contains s.keys expr.CountAll → s.group ≡ None → Ev expr.CountAll s ≡ cell.Null }
    ensures count { (s : Scope) (rows : List Seen) → ¬ Contains s.keys expr.CountAll → s.group ≡ Some rows → Ev expr.CountAll s ≡ count_of rows }
    ensures aggregate_outside { (kind : AggKind) (a : Expr) (s : Scope) → ¬ Contains s.keys (expr.Agg kind a) → s.group ≡ None → Ev (expr.Agg kind a) s ≡ cell.Null }
    ensures aggregate { (kind : AggKind) (a : Expr) (s : Scope) (rows : List Seen) → ¬ Contains s.keys (expr.Agg kind a) → s.group ≡ Some rows → Ev (expr.Agg kind a) s ≡ agg_value kind (map (λ row. Ev a (at_row s.bounds row)) rows) }
{}

/// In a group of a SELECT, a part that equals a key has the value that it has for each of the group's rows.
pub fn keys_keep_their_value_in_a_group()
    ensures each_row { (u : Bounds) (columns : List (List Column)) (keys : List Expr) (rows : List Joined) →
        All (λ (g : Group). All (λ row. (e : Expr) → Contains keys e → Ev e (group_scope u columns keys g) ≡ Ev e (row_scope u columns row)) g.rows) (groups u columns keys rows) }
    ensures key_values { (u : Bounds) (columns : List (List Column)) (keys : List Expr) (row : Joined) (rows : List Joined) (e : Expr) → Contains keys e →
        Ev e (group_scope u columns keys (record { key_values = key_list u columns keys row; rows = rows })) ≡ Ev e (row_scope u columns row) }
{}

/// An expression's value hangs on the columns that it names alone: where all others are NULL, it is the same.
#[tactic(auto, using(crate::proofs::Shown::Ev_only))]
pub fn values_hang_on_named_columns()
    ensures { (shown : ℕ → List ℕ → Bool) (e : Expr) → Covers shown (columns e) → (s : Scope) → Ev e (only shown s) ≡ Ev e s }
{}
