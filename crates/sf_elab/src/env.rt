//! What names stand for at some place of a file, and the expressions there.

ghost use Rattle.std.specs.Prelude.{◌≡◌, IfOk};
ghost use Rattle.sf_base.specs.Results.{Appends};
ghost use Rattle.sf_elab.specs.Files.Faults.{where_};
ghost use Rattle.sf_elab.specs.Names.InEnv.{env_of, variable, occurrence, variable_faults, expr_of, expr_faults, expr_place, test_of, test_faults, field_of, field_faults, resource_named, resource_faults};
ghost use Rattle.sf_elab.specs.Names.Texts.{text};

use crate::declared::Declared;
use crate::fault::Fault;
use crate::table::Table;
use crate::texts::text;
use sf_ast::{SurfaceExpr, SurfaceTest, Word};
use sf_base::{FieldId, Place, ResId, Var};
use sf_core::{Expr, Occurrence, Test};
use std::alloc::AllocError;

/// What names stand for where one reads: the file's names, and before them own variables.
#[derive(Drop)]
pub struct Env<'a> {
    /// The file.
    pub bytes: &'a [u8],
    /// What the names of the whole file stand for.
    pub declared: &'a Declared,
    /// In a procedure its parameters and locals; in an invariant its resource's variables.
    pub own: &'a Table<Var>,
    /// Whether one reads an invariant, which mentions own variables alone.
    pub in_invariant: bool,
}

/// Notes the fault where the test is true.
pub fn report_if(test: bool, fault: Fault, found: &mut Vec<Fault>) -> Result<(), AllocError>
    ensures { Appends result found.old.items found.new.items (where_ test fault) }
{
    if test {
        found.push(fault)?;
    }
    Ok(())
}

/// Where the first token of an expression is.
pub fn expr_place(e: SurfaceExpr) -> Place
    ensures { result ≡ expr_place e }
{
    match e {
        SurfaceExpr::Name(word) => word.place,
        SurfaceExpr::Nil(place) => place,
        SurfaceExpr::Null(place) => place,
        SurfaceExpr::Number(_, place) => place,
    }
}

impl Env<'_> {
    /// The variable of that name.
    fn variable(&self, word: Word) -> Option<Var>
        ensures { result ≡ variable (env_of self.now) word }
    {
        let name = text(self.bytes, word);
        match self.own.find(name) {
            Some(found) => Some(found),
            None => {
                if self.in_invariant {
                    None
                } else {
                    self.declared.shared.find(name)
                }
            }
        }
    }

    /// The variable of that name, where it is. What is wrong with the name is noted.
    pub fn occurrence(&self, word: Word, found: &mut Vec<Fault>) -> Result<Occurrence, AllocError>
        ensures same { IfOk result (λ x. x ≡ occurrence (env_of self.now) word) }
        ensures faults { Appends result found.old.items found.new.items
            (variable_faults (env_of self.now) word) }
    {
        let var = self.variable(word);
        let fault = if self.in_invariant {
            Fault::Foreign(word)
        } else {
            Fault::Unknown(word)
        };
        report_if(var.is_none(), fault, found)?;
        Ok(Occurrence {
            var: var.unwrap_or(Var::Own(0)),
            place: word.place,
        })
    }

    /// An expression.
    pub fn expr(&self, e: SurfaceExpr, found: &mut Vec<Fault>) -> Result<Expr, AllocError>
        ensures same { IfOk result (λ x. x ≡ expr_of (env_of self.now) e) }
        ensures faults { Appends result found.old.items found.new.items
            (expr_faults (env_of self.now) e) }
    {
        match e {
            SurfaceExpr::Name(word) => {
                let occurrence = self.occurrence(word, found)?;
                Ok(Expr::Var(occurrence))
            }
            SurfaceExpr::Nil(_) => Ok(Expr::Nil),
            SurfaceExpr::Null(_) => Ok(Expr::Nil),
            SurfaceExpr::Number(number, _) => Ok(Expr::Int(number)),
        }
    }

    /// A test of expressions.
    pub fn test(
        &self,
        test: &SurfaceTest<SurfaceExpr>,
        found: &mut Vec<Fault>,
    ) -> Result<Test<Expr>, AllocError>
        ensures same { IfOk result (λ x. x ≡ test_of (expr_of (env_of self.now)) test.now) }
        ensures faults { Appends result found.old.items found.new.items
            (test_faults (expr_faults (env_of self.now)) test.now) }
    {
        match test {
            SurfaceTest::True(_) => Ok(Test::True),
            SurfaceTest::Equal(x, y) => {
                let x = self.expr(*x, found)?;
                let y = self.expr(*y, found)?;
                Ok(Test::Equal(x, y))
            }
            SurfaceTest::Differ(x, y) => {
                let x = self.expr(*x, found)?;
                let y = self.expr(*y, found)?;
                Ok(Test::Differ(x, y))
            }
        }
    }

    /// The field of that name.
    pub fn field(&self, word: Word, found: &mut Vec<Fault>) -> Result<FieldId, AllocError>
        ensures same { IfOk result (λ x. x ≡ field_of (env_of self.now) word) }
        ensures faults { Appends result found.old.items found.new.items
            (field_faults (env_of self.now) word) }
    {
        let field = self.declared.fields.find(text(self.bytes, word));
        report_if(field.is_none(), Fault::Unknown(word), found)?;
        Ok(field.unwrap_or(FieldId(0)))
    }

    /// The resource of that name.
    pub fn resource(&self, word: Word, found: &mut Vec<Fault>) -> Result<ResId, AllocError>
        ensures same { IfOk result (λ x. x ≡ resource_named (env_of self.now) word) }
        ensures faults { Appends result found.old.items found.new.items
            (resource_faults (env_of self.now) word) }
    {
        let resource = self.declared.resources.find(text(self.bytes, word));
        report_if(resource.is_none(), Fault::Unknown(word), found)?;
        Ok(resource.unwrap_or(ResId(0)))
    }
}
