// What a search asks of tuples of classes.
ghost use Rattle.std.specs.Prelude.{◌≡◌};
ghost use Rattle.rules.specs.Lookup.{lookup};
ghost use Rattle.layout.specs.Bundles.{model};
ghost use Rattle.subclasses.specs.Places.{Arguments};
ghost use Rattle.dispatch.specs.Found.{found_of};
ghost use Rattle.tuple_search.specs.Questions.{About, function_of, stops_at};

use answers::failure::NotFound;
use coverage_rule::judge::judge_found;
use layout::open::OpenBundle;
use subclasses::prepared::PreparedBundle;

// That the coverage rule of a signature holds; that a send of a function finds a method; that it finds this method.
#[derive(Clone, Copy)]
pub enum Question {
    Rule(usize),
    Finds(usize),
    FindsOnly(usize, usize),
}

impl Question {
    // The function whose sends are asked about.
    pub(crate) fn function(self, bundle: &OpenBundle<'_>) -> usize
        requires { About (model bundle.now) self }
        ensures { result ≡ function_of (model bundle.now) self }
    {
        match self {
            Question::Rule(s) => bundle.sig_function(s),
            Question::Finds(f) => f,
            Question::FindsOnly(f, _) => f,
        }
    }

    // Whether the answer is no for arguments for which lookup finds this.
    pub(crate) fn stops_at(
        self,
        prepared: &PreparedBundle<'_>,
        args: &[u8],
        found: Result<usize, NotFound>,
    ) -> bool
        requires about { About (model prepared.now.bundle) self }
        requires arguments { Arguments (model prepared.now.bundle) (function_of (model prepared.now.bundle) self) args.now }
        requires found_value { found_of found ≡ lookup (model prepared.now.bundle) (function_of (model prepared.now.bundle) self) args.now }
        ensures { result ≡ stops_at (model prepared.now.bundle) self args.now }
    {
        match self {
            Question::Rule(s) => judge_found(prepared, s, args, found).is_err(),
            Question::Finds(_) => found.is_err(),
            Question::FindsOnly(_, m) => match found {
                Ok(n) => n != m,
                Err(_) => true,
            },
        }
    }
}
