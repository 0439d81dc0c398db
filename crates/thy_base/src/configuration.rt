//! A configuration as what a geometry is made of.

use crate::ranges::{first_fault, parameters};
use crate::{Config, ConfigError};
use thy_block::{Configuration, Parameters};

impl Configuration for Config {
    type Fault = ConfigError;

    ghost use Rattle.thy_base.specs.Config.{fault_of, parameters_of, rows_of};
    ghost use Rattle.thy_base.specs.Rows.{AreIn};

    ghost numbers = { parameters_of };

    ghost fits = { λ c. AreIn (rows_of c) };

    ghost fault = { fault_of };

    fn first_fault(&self) -> Option<ConfigError> {
        first_fault(self)
    }

    fn parameters(&self) -> Parameters {
        parameters(self)
    }
}
