//! What holds of the grammar and of values themselves.

ghost use Rattle.std.specs.Prelude.{◌≡◌, ℕ, ℤ, List, Ok, length, true, IsTrue};
ghost use Rattle.std.specs.List.{All};
ghost use Rattle.cpl_base.specs.Numbers.{IsValue};
ghost use Rattle.cpl_formula.specs.Formulas.{OutcomeOf};
ghost use Rattle.cpl_formula.specs.Grammar.{Expr, yield_of_expr};
ghost use Rattle.cpl_formula.specs.Reads.{AreReads};
ghost use Rattle.cpl_formula.specs.Steps.{parsed_of};
ghost use Rattle.cpl_formula.specs.Tangles.{Tangles};
ghost use Rattle.cpl_formula.specs.Tokens.{is_tangled};
ghost use Rattle.cpl_formula.specs.Tree.{is_over, value_of};
ghost use Rattle.cpl_formula.specs.declared.formula.Formula.{Formula};
ghost use Rattle.cpl_formula.specs.declared.formula.Parsed.{Parsed};

/// The grammar is unambiguous: no two derivations yield the same tokens. A text is tangled exactly where more
/// than 32 `(` are open somewhere in it, or more than 32 minus signs stand in a row. Each text has an
/// outcome, which a function computes. Where it computes a formula, this can be evaluated at a value for each of its
/// reads, and each read is among the names given and stands once.
///
/// Source: this project's own.
pub fn grammar_laws()
    ensures unambiguous { (d e : Expr) → yield_of_expr d ≡ yield_of_expr e → d ≡ e }
    ensures tangles { (text : List ℕ) → is_tangled text ≡ true → Tangles text }
    ensures tangled { (text : List ℕ) → Tangles text → is_tangled text ≡ true }
    ensures computed { (fields alarms : List (List ℕ)) (text : List ℕ) → OutcomeOf fields alarms text (parsed_of fields alarms text) }
    ensures over { (fields alarms : List (List ℕ)) (text : List ℕ) (p : Parsed)
        → parsed_of fields alarms text ≡ Ok p → IsTrue (is_over (length p.reads) p.tree) }
    ensures among { (fields alarms : List (List ℕ)) (text : List ℕ) (p : Parsed)
        → parsed_of fields alarms text ≡ Ok p → AreReads (length fields) (length alarms) p.reads }
{}

/// Over inputs that are values, the value of a tree is a value, if its inputs are among these and its numbers
/// are values.
///
/// Source: this project's own.
pub fn value_laws()
    ensures within { (inputs : List ℤ) (tree : Formula) → All IsValue inputs → IsTrue (is_over (length inputs) tree) → IsValue (value_of inputs tree) }
{}
