mod charts;
mod reading;
mod report;
mod squares;
