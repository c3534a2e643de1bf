// Laws of the binary format (Core Specification, 5.4 Instructions): what reading from left to right says of the grammar. There is no code here.

ghost use Rattle.std.specs.Prelude.{◌≡◌, ℕ, List};
ghost use Rattle.spec_modules.specs.Syntax.{Instrs};
ghost use Rattle.spec_modules.specs.Grammar.{expression};
ghost use Rattle.spec_modules.specs.Spells.{ExpressionFits};

/// No bytes spell two expressions within the limits.
pub fn one_expression()
    ensures { (bytes : List ℕ) (is js : Instrs) → ExpressionFits is → ExpressionFits js → expression is bytes → expression js bytes → is ≡ js }
{}
