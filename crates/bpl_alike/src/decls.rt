//! Declarations.
ghost use Rattle.bpl_ast.specs.Alike.{
  bare_argument,
  bare_axiom,
  bare_body,
  bare_constants,
  bare_decl,
  bare_function,
  bare_group,
  bare_heads,
  bare_implementation,
  bare_modifies,
  bare_parameters,
  bare_procedure,
  bare_result,
  bare_synonym,
  bare_variables,
};

use crate::lists::{Compare, lists, options};
use bpl_ast::{
    Axiom, Body, Constants, Decl, Function, FunctionArgument, FunctionResult, Group, Heads,
    Implementation, Modifies, ParameterGroup, Procedure, Synonym, Variables,
};

impl Compare for Synonym {
    ghost bare = { bare_synonym };

    fn is_like(&self, other: &Synonym) -> bool {
        lists(self.attributes.as_slice(), other.attributes.as_slice())
            && (self.name.is_like(&other.name) && self.sort.is_like(&other.sort))
    }
}

impl Compare for Constants {
    ghost bare = { bare_constants };

    fn is_like(&self, other: &Constants) -> bool {
        self.unique == other.unique
            && (lists(self.attributes.as_slice(), other.attributes.as_slice())
                && (lists(self.names.as_slice(), other.names.as_slice())
                    && self.sort.is_like(&other.sort)))
    }
}

impl Compare for FunctionArgument {
    ghost bare = { bare_argument };

    fn is_like(&self, other: &FunctionArgument) -> bool {
        options(&self.name, &other.name) && self.sort.is_like(&other.sort)
    }
}

impl Compare for FunctionResult {
    ghost bare = { bare_result };

    fn is_like(&self, other: &FunctionResult) -> bool {
        match (self, other) {
            (
                FunctionResult::Returns { argument: x, .. },
                FunctionResult::Returns { argument: y, .. },
            ) => x.is_like(y),
            (FunctionResult::Plain { sort: x, .. }, FunctionResult::Plain { sort: y, .. }) => {
                x.is_like(y)
            }
            _ => false,
        }
    }
}

impl Compare for Function {
    ghost bare = { bare_function };

    fn is_like(&self, other: &Function) -> bool {
        lists(self.attributes.as_slice(), other.attributes.as_slice())
            && (self.name.is_like(&other.name)
                && (lists(self.arguments.as_slice(), other.arguments.as_slice())
                    && (self.output.is_like(&other.output) && options(&self.body, &other.body))))
    }
}

impl Compare for Axiom {
    ghost bare = { bare_axiom };

    fn is_like(&self, other: &Axiom) -> bool {
        lists(self.attributes.as_slice(), other.attributes.as_slice())
            && self.condition.is_like(&other.condition)
    }
}

impl Compare for Group {
    ghost bare = { bare_group };

    fn is_like(&self, other: &Group) -> bool {
        lists(self.names.as_slice(), other.names.as_slice()) && self.sort.is_like(&other.sort)
    }
}

impl Compare for Variables {
    ghost bare = { bare_variables };

    fn is_like(&self, other: &Variables) -> bool {
        lists(self.attributes.as_slice(), other.attributes.as_slice())
            && lists(self.groups.as_slice(), other.groups.as_slice())
    }
}

impl Compare for ParameterGroup {
    ghost bare = { bare_parameters };

    fn is_like(&self, other: &ParameterGroup) -> bool {
        lists(self.attributes.as_slice(), other.attributes.as_slice())
            && (lists(self.names.as_slice(), other.names.as_slice())
                && self.sort.is_like(&other.sort))
    }
}

impl Compare for Heads {
    ghost bare = { bare_heads };

    fn is_like(&self, other: &Heads) -> bool {
        lists(self.ins.as_slice(), other.ins.as_slice())
            && lists(self.outs.as_slice(), other.outs.as_slice())
    }
}

impl Compare for Modifies {
    ghost bare = { bare_modifies };

    fn is_like(&self, other: &Modifies) -> bool {
        lists(self.attributes.as_slice(), other.attributes.as_slice())
            && lists(self.names.as_slice(), other.names.as_slice())
    }
}

impl Compare for Body {
    ghost bare = { bare_body };

    fn is_like(&self, other: &Body) -> bool {
        lists(self.locals.as_slice(), other.locals.as_slice())
            && lists(self.statements.as_slice(), other.statements.as_slice())
    }
}

impl Compare for Procedure {
    ghost bare = { bare_procedure };

    fn is_like(&self, other: &Procedure) -> bool {
        lists(self.attributes.as_slice(), other.attributes.as_slice())
            && (self.name.is_like(&other.name)
                && (self.heads.is_like(&other.heads)
                    && (lists(self.specs.as_slice(), other.specs.as_slice())
                        && options(&self.body, &other.body))))
    }
}

impl Compare for Implementation {
    ghost bare = { bare_implementation };

    fn is_like(&self, other: &Implementation) -> bool {
        lists(self.attributes.as_slice(), other.attributes.as_slice())
            && (self.name.is_like(&other.name)
                && (self.heads.is_like(&other.heads) && self.body.is_like(&other.body)))
    }
}

impl Compare for Decl {
    ghost bare = { bare_decl };

    fn is_like(&self, other: &Decl) -> bool {
        match (self, other) {
            (Decl::Synonym(x), Decl::Synonym(y)) => x.is_like(y),
            (Decl::Constants(x), Decl::Constants(y)) => x.is_like(y),
            (Decl::Function(x), Decl::Function(y)) => x.is_like(y),
            (Decl::Axiom(x), Decl::Axiom(y)) => x.is_like(y),
            (Decl::Variables(x), Decl::Variables(y)) => x.is_like(y),
            (Decl::Procedure(x), Decl::Procedure(y)) => x.is_like(y),
            (Decl::Implementation(x), Decl::Implementation(y)) => x.is_like(y),
            _ => false,
        }
    }
}
