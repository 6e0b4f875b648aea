//! Laws of typing, each proved once: no code calls them.
ghost use Rattle.std.specs.Prelude.{◌≡◌, codes, Ok};
ghost use Rattle.pm_design.specs.declared.body.Ex.TheVariants as ex;
ghost use Rattle.pm_syn.specs.declared.expression.Expr.TheVariants as expression;
ghost use Rattle.pm_elab.specs.Values.{bits_of};
ghost use Rattle.pm_typing.specs.declared.operand.Operand.TheVariants as operands;
ghost use Rattle.pm_typing.specs.Expressions.{meaning, operand};
ghost use Rattle.pm_type_laws.specs.Sample as sample;
ghost use Rattle.pm_type_laws.specs.Views.{ExpressionsAreSound, IsSite};

/// Each value that typing gives an expression is sound: it has the width of its type, which is 1 to 128 bits, its parts
/// lie in what the component may read, and it reads no temporary that some path leaves unassigned.
pub fn expressions_are_sound()
    ensures { ExpressionsAreSound }
{}

/// There is a place in a body as elaboration makes it, and a name there that has a value.
pub fn a_name_has_a_value()
    ensures site { IsSite sample.view sample.site }
    ensures value { operand (meaning (expression.Name (codes "t"))) sample.site (record { nodes = 0; line = 1 })
        ≡ Ok (operands.Bits (ex.Temp 0 0 8) (bits_of 8), record { nodes = 1; line = 1 }) }
{}
