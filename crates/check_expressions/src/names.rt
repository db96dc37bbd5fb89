// The tables that say what names mean.
ghost use Rattle.std.specs.Prelude.{◌≡◌, ◌++◌, ◌∷◌, [], IfOk, OnOk};
ghost use Rattle.std.specs.Prelude.{option_copied};
ghost use Rattle.check_declarations.specs.NameTables.{is_new};
ghost use Rattle.check_expressions.specs.EnvOf.{env_of};
ghost use Rattle.check_expressions.specs.Environment as is;

use crate::meaning::{Callable, Meaning, Object, Variable};
use check_declarations::NameTable;
use pt_base::{FnId, GlobalId, VarId};
use std::alloc::{AllocError, Global};
use std::mem;
use type_rules::Type;

/// The names of a scope with what they mean; of two of one name the first stays.
pub type Scope = NameTable<Meaning>;

/// What names mean where an expression stands.
#[derive(Drop)]
pub struct Names {
    /// The functions and globals of the file.
    pub file: Scope,
    /// The functions by number.
    pub functions: Vec<Callable>,
    /// The globals by number.
    pub globals: Vec<Object>,
    /// The scopes of the function that is being judged, the innermost last.
    pub scopes: Vec<Scope>,
    /// Its variables by number.
    pub variables: Vec<Variable>,
}

impl Names {
    /// Nothing is declared.
    pub fn new(alloc: Global) -> Names
        ensures { env_of result ≡ is.no_names }
    {
        Names {
            file: NameTable::new(alloc),
            functions: Vec::new(alloc),
            globals: Vec::new(alloc),
            scopes: Vec::new(alloc),
            variables: Vec::new(alloc),
        }
    }

    /// What a name means: the innermost scope that has it decides, and last the file.
    pub fn find(&self, name: &[u8]) -> Option<Meaning>
        ensures { result ≡ is.find (env_of self.now) name.now }
    {
        let mut depth = self.scopes.len();
        while depth > 0 {
            depth -= 1;
            let found = find_in(&self.scopes[depth], name);
            if found.is_some() {
                return found;
            }
        }
        find_in(&self.file, name)
    }

    /// A global as an object.
    pub fn global_at(&self, global: GlobalId) -> Object
        ensures { result ≡ is.global_at (env_of self.now) global }
    {
        match self.globals.get(global.0 as usize) {
            Some(object) => *object,
            None => NO_OBJECT,
        }
    }

    /// A variable as an object.
    pub fn variable_at(&self, variable: VarId) -> Object
        ensures { result ≡ is.variable_at (env_of self.now) variable }
    {
        match self.variables.get(variable.0 as usize) {
            Some(v) => Object {
                ty: v.ty,
                fixed: v.fixed,
            },
            None => NO_OBJECT,
        }
    }

    /// A function as its first declaration has it.
    pub fn function_at(&self, function: FnId) -> Option<&Callable>
        ensures { option_copied result ≡ is.function_at (env_of self.now) function }
    {
        self.functions.get(function.0 as usize)
    }

    /// Opens a scope inside the others.
    pub fn open_scope(&mut self, alloc: Global) -> Result<(), AllocError>
        ensures { OnOk result (env_of self.new ≡ is.opened (env_of self.old)) }
    {
        self.scopes.push(NameTable::new(alloc))?;
        Ok(())
    }

    /// Closes the innermost scope.
    pub fn close_scope(&mut self)
        ensures { env_of self.new ≡ is.closed (env_of self.old) }
    {
        let _ = self.scopes.pop();
    }

    /// Declares a variable of the function, which the innermost scope names from now on, and says
    /// whether its name is new there; a name that is there keeps its meaning. Without a scope
    /// nothing names it. More than 2^32 - 1 variables are answered as want of memory.
    pub fn add_variable(&mut self, alloc: Global, variable: Variable) -> Result<bool, AllocError>
        ensures env { OnOk result (env_of self.new ≡ is.with_variable (env_of self.old) variable) }
        ensures new { IfOk result (λ b. b ≡ is.is_new_inside (env_of self.old).scopes variable.name) }
    {
        let number = VarId(as_number(self.variables.len())?);
        let Some(mut scope) = self.scopes.pop() else {
            self.variables.push(variable)?;
            return Ok(false);
        };
        let is_new = scope.add(alloc, variable.name.as_slice(), Meaning::Local(number))?;
        self.scopes.push(scope)?;
        self.variables.push(variable)?;
        Ok(is_new)
    }

    /// Declares a variable of the function that nothing names.
    pub fn add_unnamed(&mut self, variable: Variable) -> Result<(), AllocError>
        ensures { OnOk result (env_of self.new ≡ is.with_unnamed (env_of self.old) variable) }
    {
        self.variables.push(variable)?;
        Ok(())
    }

    /// Declares a function by its first declaration, and says whether its name is new in the file;
    /// a name that is there keeps its meaning. More than 2^32 - 1 functions are answered as want of
    /// memory.
    pub fn add_function(&mut self, alloc: Global, function: Callable) -> Result<bool, AllocError>
        ensures env { OnOk result (env_of self.new ≡ is.with_function (env_of self.old) function) }
        ensures new { IfOk result (λ b. b ≡ is_new (env_of self.old).file function.name) }
    {
        let number = FnId(as_number(self.functions.len())?);
        let is_new = self
            .file
            .add(alloc, function.name.as_slice(), Meaning::Function(number))?;
        self.functions.push(function)?;
        Ok(is_new)
    }

    /// Declares a global, and says whether its name is new in the file; a name that is there keeps
    /// its meaning. More than 2^32 - 1 globals are answered as want of memory.
    pub fn add_global(
        &mut self,
        alloc: Global,
        name: &[u8],
        object: Object,
    ) -> Result<bool, AllocError>
        ensures env { OnOk result (env_of self.new ≡ is.with_global (env_of self.old) name.now object) }
        ensures new { IfOk result (λ b. b ≡ is_new (env_of self.old).file name.now) }
    {
        let number = GlobalId(as_number(self.globals.len())?);
        let is_new = self.file.add(alloc, name, Meaning::Global(number))?;
        self.globals.push(object)?;
        Ok(is_new)
    }

    /// Ends the function: gives its variables, and forgets them and its scopes.
    pub fn take_variables(&mut self, alloc: Global) -> Vec<Variable>
        ensures variables { result.items ≡ (env_of self.old).variables }
        ensures env { env_of self.new ≡ is.without_variables (env_of self.old) }
    {
        self.scopes.clear();
        mem::replace(&mut self.variables, Vec::new(alloc))
    }
}

/// How many there are, as the number of the next one.
pub fn as_number(count: usize) -> Result<u32, AllocError>
    ensures { IfOk result (λ n. n ≡ count) }
{
    if count > u32::MAX as usize {
        return Err(AllocError);
    }
    Ok(count as u32)
}

/// An object that no declaration has.
const NO_OBJECT: Object = Object {
    ty: Type::Bad,
    fixed: false,
};

/// What a scope says that a name means.
pub(crate) fn find_in(scope: &Scope, name: &[u8]) -> Option<Meaning>
    ensures { result ≡ is.find_in scope.now name.now }
{
    let number = scope.number_of(name)?;
    scope.get(number).copied()
}
