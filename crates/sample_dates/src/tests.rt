mod charts;
mod days;
mod features;
mod texts;
