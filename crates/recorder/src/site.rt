//! Which host a recorder is of, known from a type, so that a seat at another recorder doesn't compile.

ghost use Rattle.std.specs.Prelude.{◌≡◌, None};
ghost use Rattle.case_forms.specs.declared.calls.Host.{Host};
ghost use Rattle.case_forms.specs.declared.calls.Host.TheVariants.{Zero};
ghost use Rattle.case_forms.specs.declared.trace.Header.{Header};
ghost use Rattle.case_forms.specs.declared.version.Version.TheVariants.{One};
ghost use Rattle.case_forms.specs.declared.version.Initial.TheVariants.{Rfc5681};
ghost use Rattle.case_forms.specs.declared.version.Judged.TheVariants.{Full};
ghost use Rattle.case_forms.specs.declared.version.Growth.TheVariants.{OneSegment};
ghost use Rattle.case_forms.specs.declared.version.Sender.TheVariants.{Reno};

use crate::host_book::HostBook;
use std::marker::{Brand, PhantomData};
use std::sync::ledger::Ledger;

/// The ledger of a recorder's seats, with its host and its header. The maker of a recorder picks both.
pub trait Site: Ledger {
    ghost host: { Host };

    ghost header: { Header };
}

impl Site for Brand {
    ghost host = { Zero };

    ghost header = { record {
      version = One;
      skew = 0;
      msl = 1;
      grain = 0;
      minrto = 0;
      extra = 0;
      initial = Rfc5681;
      congestion = Full;
      slack = None;
      sender = Reno;
      growth = OneSegment;
    } };
}

/// The book of that host.
#[derive(Drop)]
pub(crate) struct Held<L: Site> {
    pub(crate) book: HostBook,
    pub(crate) of: PhantomData<L>,
    ghost host: { book.core.recorded.me ≡ L.host },
    ghost header: { book.core.recorded.header ≡ L.header },
}
