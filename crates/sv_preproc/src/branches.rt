// Conditionals (IEEE 1800-2017 clause 22.6).
ghost use Rattle.std.specs.Prelude.{◌≡◌, ◌∷◌, OnOk};
ghost use Rattle.sv_macro.specs.declared.words.Condition.TheVariants.{Elsif};
ghost use Rattle.sv_preproc.specs.Branches as spec;
ghost use Rattle.sv_preproc.specs.States.{behind_next, next_name};
ghost use Rattle.sv_preproc.specs.Code.{seen, Turns};
ghost use Rattle.sv_preproc.specs.Machine.{acted};

use crate::state::{Branch, Conditional, OpenFile, State};
use crate::turn::Turn;
use sv_macro::lines::take_name;
use sv_macro::tokens::broken;
use sv_macro::words::Condition;
use sv_source::{Fail, Token};

fn is_taken(branch: Branch) -> bool
    ensures { result ≡ spec.is_taken branch }
{
    match branch {
        Branch::Waiting => false,
        Branch::Taken => true,
        Branch::Over => false,
    }
}

fn branch_if(test: bool) -> Branch
    ensures { result ≡ spec.branch_if test }
{
    if test { Branch::Taken } else { Branch::Waiting }
}

fn branch_of_else(branch: Branch) -> Branch
    ensures { result ≡ spec.branch_of_else branch }
{
    match branch {
        Branch::Waiting => Branch::Taken,
        Branch::Taken => Branch::Over,
        Branch::Over => Branch::Over,
    }
}

impl OpenFile {
    /// Whether a branch of the file that isn't taken is read.
    pub fn skips(&self) -> bool
        ensures { result ≡ spec.skips_in self.now.conditionals }
    {
        match self.conditionals.top() {
            Some(innermost) => !is_taken(innermost.branch),
            None => false,
        }
    }
}

impl State {
    // A conditional begins.
    fn begin_conditional(
        &mut self,
        file: OpenFile,
        first: Token,
        branch: Branch,
    ) -> Result<Turn, Fail>
        ensures { Turns (acted self.old.calls (spec.conditional_begins (seen self.old) file self.old.files first branch)) self.new result }
    {
        let mut file = file;
        file.conditionals.push(Conditional {
            first,
            branch,
            last: false,
        })?;
        self.files.push(file)?;
        Ok(Turn::Go)
    }

    // A conditional whose test asks for a name, or for none.
    fn begin_if(&mut self, file: OpenFile, first: Token, wanted: bool) -> Result<Turn, Fail>
        ensures { Turns (acted self.old.calls (spec.if_begins (seen self.old) file self.old.files first wanted)) self.new result }
    {
        let Some(name) = take_name(&mut self.coming) else {
            return Err(broken(201, first));
        };
        let branch = if file.skips() {
            Branch::Over
        } else {
            branch_if(self.macros.has(&name) == wanted)
        };
        self.begin_conditional(file, first, branch)
    }

    // The innermost conditional goes on with this branch.
    fn next_branch(
        &mut self,
        file: OpenFile,
        innermost: Conditional,
        branch: Branch,
        last: bool,
    ) -> Result<Turn, Fail>
        ensures { Turns (acted self.old.calls (spec.branch_begins (seen self.old) file self.old.files innermost file.conditionals branch last)) self.new result }
    {
        let mut file = file;
        file.conditionals.push(Conditional {
            first: innermost.first,
            branch,
            last,
        })?;
        self.files.push(file)?;
        Ok(Turn::Go)
    }

    // Another branch with a test.
    fn elsif(&mut self, file: OpenFile, token: Token) -> Result<Turn, Fail>
        ensures { Turns (acted self.old.calls (spec.branching (seen self.old) file self.old.files token Elsif)) self.new result }
    {
        let Some(name) = take_name(&mut self.coming) else {
            return Err(broken(201, token));
        };
        let mut file = file;
        let Some(innermost) = file.conditionals.pop() else {
            return Err(broken(205, token));
        };
        if innermost.last {
            return Err(broken(205, token));
        }
        let branch = match innermost.branch {
            Branch::Waiting => branch_if(self.macros.has(&name)),
            Branch::Taken | Branch::Over => Branch::Over,
        };
        self.next_branch(file, innermost, branch, false)
    }

    // The last branch.
    fn last_branch(&mut self, file: OpenFile, token: Token) -> Result<Turn, Fail>
        ensures { Turns (acted self.old.calls (spec.else_in (seen self.old) file self.old.files file.conditionals token)) self.new result }
    {
        let mut file = file;
        let Some(innermost) = file.conditionals.pop() else {
            return Err(broken(205, token));
        };
        if innermost.last {
            return Err(broken(205, token));
        }
        let branch = branch_of_else(innermost.branch);
        self.next_branch(file, innermost, branch, true)
    }

    // A conditional ends.
    fn end_conditional(&mut self, file: OpenFile, token: Token) -> Result<Turn, Fail>
        ensures { Turns (acted self.old.calls (spec.endif_in (seen self.old) file self.old.files file.conditionals token)) self.new result }
    {
        let mut file = file;
        let Some(_innermost) = file.conditionals.pop() else {
            return Err(broken(205, token));
        };
        self.files.push(file)?;
        Ok(Turn::Go)
    }

    /// A directive that selects branches.
    pub fn select_branch(&mut self, token: Token, word: Condition) -> Result<Turn, Fail>
        ensures { Turns (acted self.old.calls (spec.branches (seen self.old) token word)) self.new result }
    {
        let Some(file) = self.files.pop() else {
            return Err(broken(201, token));
        };
        match word {
            Condition::Ifdef => self.begin_if(file, token, true),
            Condition::Ifndef => self.begin_if(file, token, false),
            Condition::Elsif => self.elsif(file, token),
            Condition::Else => self.last_branch(file, token),
            Condition::Endif => self.end_conditional(file, token),
        }
    }
}
